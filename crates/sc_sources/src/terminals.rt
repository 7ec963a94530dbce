ghost use Rattle.std.specs.Prelude.{◌<◌, ◌^◌, length};

use jv_grammar::Terminal;

/// The terminals of a source, and where it ends.
#[derive(Drop)]
pub(crate) struct Terminals {
    pub(crate) list: Vec<Terminal>,
    pub(crate) end: u32,
    ghost few: { length list.items < 2 ^ 32 },
}
