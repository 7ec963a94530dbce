mod nesting;
mod sources;
