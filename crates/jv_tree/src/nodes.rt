//! One function for each node of a tree, whose clause says its pure tree.
//!
//! An `at` is the offset at which the node starts, and an operator's place is the offset at which the operator starts.
//! Where a part lies behind a pointer, the node takes memory for it.

mod declarations;
mod expressions;
mod statements;

pub use declarations::{
    class_or_interface, constructor, constructor_member, field_member, import, method,
    method_member, nested, parameter, unit,
};
pub use expressions::{
    assignment, bare, bool_literal, call, cast, chain, char_literal, conditional, field, index,
    int_literal, list, long_literal, name_expression, new_array, new_list, new_object,
    null_literal, on, one, operand, postfix, prefix, string_literal, super_field, super_target,
    this, type_operand, type_ref, variable,
};
pub use statements::{
    block, break_loop, continue_loop, do_loop, effect, empty, for_loop, if_else, local,
    return_from, while_loop,
};
