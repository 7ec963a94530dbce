//! Tests of `jv_names`. They stand beside it, so that it is not proved once more with them.
#![tactic(auto)]

#[cfg(test)]
mod default_folder;
#[cfg(test)]
mod name_tests;
#[cfg(test)]
mod read_tests;
#[cfg(test)]
mod small_folder;
#[cfg(test)]
mod small_replies;
#[cfg(test)]
mod static_folder;
#[cfg(test)]
mod static_tests;
#[cfg(test)]
mod tests;
