//! Data and predicates of small names.

use crate::{Java, JavaDatum, JavaPred, Ty, TypeBase, TypeList};
use jv_tree::NameId;
use sg_base::{Instance, Scope};
use std::alloc::Global;
use std::test::Fail;

const STRING: Ty = Ty {
    base: TypeBase::Class(Scope {
        unit: u32::MAX,
        serial: 7,
    }),
    dims: 1,
};

/// The signature `int f(String[])`, whose name has the number 5.
fn signature(alloc: Global) -> Result<JavaDatum, Fail> {
    Ok(JavaDatum::Signature {
        name: NameId(5),
        result: Ty {
            base: TypeBase::Int,
            dims: 0,
        },
        params: TypeList::new(vec![in alloc; STRING]?),
    })
}

#[test]
fn data_are_told_by_their_names(rt: HostRuntime) -> Result<(), Fail> {
    let of_package = JavaDatum::Package { name: NameId(5) };
    let of_type = JavaDatum::TypeName { name: NameId(4) };
    let of_signature = signature(rt.alloc())?;
    assert!(rt; Java::same(&of_package, &of_signature));
    assert!(rt; !Java::same(&of_package, &of_type));
    assert!(rt; Java::matches(&JavaPred::Named(NameId(5)), &of_signature));
    assert!(rt; !Java::matches(&JavaPred::Named(NameId(5)), &of_type));
    assert!(rt; Java::matches(&JavaPred::Any, &of_type));
    assert_eq!(rt; Java::key_of_pred(&JavaPred::Named(NameId(5))), Some(5));
    assert_eq!(rt; Java::key_of_pred(&JavaPred::Any), None);
    assert_eq!(rt; Java::key_of_datum(&of_signature), 5);
    Ok(())
}

#[test]
fn copies_keep_types(rt: HostRuntime) -> Result<(), Fail> {
    let alloc = rt.alloc();
    let copy = Java::copy_datum(alloc, &signature(alloc)?)?;
    assert!(rt;
        matches!(&copy, JavaDatum::Signature { name, params, .. } if name.0 == 5 && params.as_slice().len() == 1)
    );
    if let JavaDatum::Signature { result, params, .. } = &copy {
        assert!(rt; result.base == TypeBase::Int && result.dims == 0);
        assert_eq!(rt; params.as_slice(), [STRING].as_slice());
    }
    let wanted = Java::copy_pred(alloc, &JavaPred::Named(NameId(3)))?;
    assert_eq!(rt; wanted, JavaPred::Named(NameId(3)));
    Ok(())
}

#[test]
fn a_type_of_bad_base_is_bad(rt: HostRuntime) {
    for (base, dims, bad) in [
        (TypeBase::Bad, 0u8, true),
        (TypeBase::Bad, 3, true),
        (TypeBase::Null, 0, false),
        (TypeBase::Void, 0, false),
        (TypeBase::Int, 2, false),
    ] {
        let ty = Ty { base, dims };
        assert_eq!(rt; ty.is_bad(), bad);
    }
}
