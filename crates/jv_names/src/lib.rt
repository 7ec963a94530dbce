//! The meaning of names of Java over replies (JLS 6).
//!
//! A rule of a name is a reading: it asks queries in the order of the sentence that states it, and ends with a value. No rule
//! sees a graph: what it comes to is known from the replies so far, and where one is missing it names the query.
//! `specs/Kinds.antt` says what each kind of query follows, `specs/Ends.antt` what counts in an answer, `specs/Names.antt`
//! what the parts of a name and the name of an import mean, `specs/TypeNames.antt` what the name of a type means,
//! `specs/Statics.antt` which members static imports bring, `specs/WrittenTypes.antt` what a type that is written means,
//! `specs/Members.antt` which field and methods a name means in a class, and `specs/Access.antt` what is accessible where.
//! What members and expressions read beside names stands here too: `specs/Read.antt` has the signatures of members, the
//! supertypes of classes and which result fits another one, `specs/Chosen.antt` which of several methods counts,
//! `specs/Superclass.antt` the class that a class extends, and `specs/Instances.antt` enclosing instances.
#![tactic(auto)]

mod access;
mod answers;
mod chosen;
mod context;
mod counted_ends;
mod counting;
mod counts;
mod ends;
mod file_types;
mod imports;
mod inheriting;
mod instances;
mod kind_table;
pub mod kinds;
mod known_paths;
pub mod laws;
mod meaning;
mod members;
mod oracle;
mod orders;
mod part;
mod parts;
mod qualifier;
mod queries;
mod read;
mod reference;
mod replacing;
mod resolved;
mod results;
mod scope_list;
mod signature_types;
mod spot;
mod static_kind;
mod statics;
mod superclass;
mod supers;
mod type_names;
mod words;
mod writing;
mod written_type;

pub use access::{
    accessible, read_accessible, read_type_accessible, some_has_super, type_accessible,
};
pub use answers::has_end;
pub use chosen::{first_concrete, read_first_fitting, read_fits_all};
pub use context::Context;
pub use counts::Counts;
pub use ends::Ends;
pub use imports::{read_import, resolve_import};
pub use inheriting::inherited;
pub use instances::{instance_bodies, read_has_enclosing};
pub use kind_table::java_kinds;
pub use meaning::Meaning;
pub use members::{
    all_methods, find_ends, find_field, find_methods, object_methods, read_all_methods, read_field,
    read_methods,
};
pub use oracle::Oracle;
pub use qualifier::Qualifier;
pub use queries::{for_any, for_name, member_type, package_type, subpackage};
pub use read::{read_ctor_of, read_signature_of};
pub use reference::{Reference, add_reference, read_reference};
pub use replacing::read_members_among;
pub use resolved::Resolved;
pub use results::read_result_fits;
pub use scope_list::ScopeList;
pub use signature_types::ReadSignature;
pub use spot::Spot;
pub use static_kind::StaticKind;
pub use statics::{read_static_members, read_statics_of_type, static_members};
pub use superclass::read_superclass;
pub use supers::read_supers;
pub use type_names::{read_type, resolve_type, simple_type};
pub use writing::{last_name, start_of, written};
pub use written_type::{WrittenType, read_written_type, resolve_written_type};
