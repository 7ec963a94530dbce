//! Bodies of methods and constructors, and initializers of fields.

ghost use Rattle.std.specs.Prelude.{◌≡◌, ◌<◌, ◌^◌, ◌∷◌, [], map, Some, None, IfOk, IfSome, OnOk};
ghost use Rattle.std.specs.Option.{option_map};
ghost use Rattle.sg_reading.specs.Stop.{Reads};
ghost use Rattle.jv_layout.specs.Readers.{file_of};
ghost use Rattle.jv_tree.specs.DeclTree.{ctor_tree, method_tree, param_tree};
ghost use Rattle.jv_tree.specs.ExprTree.{expr_trees, init_tree};
ghost use Rattle.jv_tree.specs.StmtTree.{stmt_trees, var_tree};
ghost use Rattle.jv_tree.specs.TypeTree.{ids_of};
ghost use Rattle.jv_names.specs.Bodies.{member_bodies};
ghost use Rattle.jv_names.specs.Instances.{instance_bodies};
ghost use Rattle.jv_names.specs.Replies.{reply_to};
ghost use Rattle.jv_expr.specs.Bodies.{ctor_call, ctor_rule, field_rule, has_params, init_by, member_instances, member_site, method_rule, needed_signature, needs_types, params_declared, statements_rule, super_checked};
ghost use Rattle.jv_expr.specs.Checking.{ReadsScope};
ghost use Rattle.jv_expr.specs.Progress.{begun_scope, ctor_statements_left, IsBegun, IsBodySoFar, IsCtorSoFar, IsFurther, IsMethodBegun, IsMethodSoFar, method_statements_left};
ghost use Rattle.jv_expr.specs.Sites.{site_of};

use crate::begun_body::BegunBody;
use crate::body_progress::BodyProgress;
use crate::calls::check_super_constructor;
use crate::expressions::{check_arguments, check_init};
use crate::local::Local;
use crate::need::Need;
use crate::owner::Owner;
use crate::params::{declare_params, given_result, param_types, result_of};
use crate::returns::some_return;
use crate::site::Site;
use crate::top_statements::go_on;
use jv_diag::DiagList;
use jv_instance::Ty;
use jv_layout::Layout;
use jv_names::{Oracle, ReadSignature, ScopeList, Spot, instance_bodies, read_signature_of};
use jv_tree::{Ctor, Expr, Init, Method, Name, Names, Param, Stmt, Var};
use sg_base::Scope;
use sg_reading::Stop;
use std::alloc::{AllocError, Global};

/// The bodies of which what stands in a body of a type has an instance: its own, and those outside.
fn own_instances(alloc: Global, l: &Layout, ty: Scope) -> Result<ScopeList, AllocError>
    ensures { IfOk result (λ found. found ≡ ty ∷ instance_bodies l.now ty) }
{
    let outer = instance_bodies(alloc, l, ty)?;
    let mut found = Vec::new(alloc);
    found.push(ty)?;
    found.extend_from_slice(outer.as_slice())?;
    Ok(ScopeList::new(found))
}

/// The bodies of which a member of a type has an instance.
fn member_instances(
    alloc: Global,
    l: &Layout,
    ty: Scope,
    member: Scope,
) -> Result<ScopeList, AllocError>
    ensures { IfOk result (λ found. found ≡ member_instances l.now ty member) }
{
    if l.is_static(member) {
        instance_bodies(alloc, l, ty)
    } else {
        own_instances(alloc, l, ty)
    }
}

/// The place of what stands in the body of a type.
fn site_at<'a>(
    owner: &'a Owner<'_>,
    spot: &'a Spot,
    instances: &'a [Scope],
    blanks: &'a [Scope],
    given: Option<Ty>,
) -> Site<'a>
    requires file { spot.now.file ≡ file_of owner.now.layout.now owner.now.ty }
    requires inside { spot.now.inside.items ≡ member_bodies owner.now.layout.now owner.now.ty }
    ensures value { site_of result ≡ member_site owner.now.layout.now owner.now.names.now owner.now.ty (map ids_of owner.now.extends.now) instances.now blanks.now given }
    ensures file { result.spot.now.file ≡ spot.now.file }
{
    Site {
        layout: owner.layout,
        names: owner.names,
        spot,
        class: owner.ty,
        instances,
        extends: owner.extends,
        blanks,
        result: given,
    }
}

/// Whether there are parameters.
fn has_params(params: &[Param]) -> bool
    ensures { result ≡ has_params (map param_tree params.now) }
{
    matches!(params, [_, ..])
}

/// The signature of a method, where its body needs the types of its parameters or its result.
#[tactic(auto, using(sg_reading::proofs::Steps::reading_steps), unfolding(crate::specs::Bodies::needed_signature))]
fn read_method_signature(
    alloc: Global,
    l: &Layout,
    o: &Oracle,
    member: Scope,
    params: &[Param],
    ss: &[Stmt],
) -> Result<Option<ReadSignature>, Need>
    ensures { Reads (reply_to o.now) (needed_signature l.now member (needs_types (map param_tree params.now) (stmt_trees ss.now))) result }
{
    if has_params(params) || some_return(ss) {
        return read_signature_of(alloc, l, o, member);
    }
    Ok(None)
}

/// The signature of a constructor, where its body needs the types of its parameters.
#[tactic(auto, using(sg_reading::proofs::Steps::reading_steps), unfolding(crate::specs::Bodies::needed_signature))]
fn read_ctor_signature(
    alloc: Global,
    l: &Layout,
    o: &Oracle,
    member: Scope,
    ctor: &Ctor,
) -> Result<Option<ReadSignature>, Need>
    ensures { Reads (reply_to o.now) (needed_signature l.now member (has_params (ctor_tree ctor.now).params)) result }
{
    if has_params(ctor.params.as_slice()) {
        return read_signature_of(alloc, l, o, member);
    }
    Ok(None)
}

/// The initializer of a field with this signature.
#[tactic(auto, using(crate::proofs::BodySteps::init_steps))]
fn read_init_by(
    alloc: Global,
    owner: &Owner<'_>,
    o: &Oracle,
    member: Scope,
    init: &Init,
    s: &Option<ReadSignature>,
) -> Result<DiagList, Need>
    ensures { Reads (reply_to o.now) (init_by owner.now.layout.now owner.now.names.now owner.now.ty (map ids_of owner.now.extends.now) member (init_tree init.now) s.now) result }
{
    let spot = Spot::of_body(alloc, owner.layout, owner.ty)?;
    let instances = member_instances(alloc, owner.layout, owner.ty, member)?;
    let site = site_at(owner, &spot, instances.as_slice(), &[], None);
    let mut ds = DiagList::empty(alloc);
    check_init(alloc, &site, o, &[], result_of(s), init, &mut ds)?;
    Ok(ds)
}

/// An initializer of a field.
#[tactic(auto, using(sg_reading::proofs::Steps::reading_steps))]
fn read_init(
    alloc: Global,
    owner: &Owner<'_>,
    o: &Oracle,
    member: Scope,
    init: &Init,
) -> Result<DiagList, Need>
    ensures { Reads (reply_to o.now) (field_rule owner.now.layout.now owner.now.names.now owner.now.ty (map ids_of owner.now.extends.now) member (Some (init_tree init.now))) result }
{
    let s = read_signature_of(alloc, owner.layout, o, member)?;
    read_init_by(alloc, owner, o, member, init, &s)
}

/// What is wrong in the initializer of a field of a type, as far as the replies tell it, or the first query that has no reply (JLS
/// 8.3.2). It takes the time of the expression and of the answers that it reads.
#[tactic(auto, using(sg_reading::proofs::Steps::reading_steps))]
pub fn read_field_init(
    alloc: Global,
    l: &Layout,
    n: &Names,
    o: &Oracle,
    ty: Scope,
    extends: &[Name],
    member: Scope,
    var: &Var,
) -> Result<DiagList, Need>
    ensures { Reads (reply_to o.now) (field_rule l.now n.now ty (map ids_of extends.now) member (var_tree var.now).init) result }
{
    let owner = Owner {
        layout: l,
        names: n,
        ty,
        extends,
    };
    match &var.init {
        None => Ok(DiagList::empty(alloc)),
        Some(init) => read_init(alloc, &owner, o, member, init),
    }
}

/// A body at a place, whose parameters are in scope.
#[tactic(auto, using(crate::proofs::TopSteps::begun_steps))]
fn begin_body(
    alloc: Global,
    site: &Site<'_>,
    params: &[Param],
    types: &[Ty],
) -> Result<BegunBody, AllocError>
    ensures { IfOk result (IsBegun (site_of site.now).result (params_declared (site_of site.now) (map param_tree params.now) types.now [] [])) }
{
    let mut locals = Vec::new(alloc);
    let mut diags = DiagList::empty(alloc);
    declare_params(alloc, site, params, types, &mut locals, &mut diags)?;
    Ok(BegunBody {
        result: site.result,
        count: 0,
        locals,
        diags,
    })
}

/// The body of a method with this signature, whose parameters are in scope.
#[tactic(auto, using(crate::proofs::BodySteps::begin_steps))]
fn begin_method(
    alloc: Global,
    owner: &Owner<'_>,
    member: Scope,
    params: &[Param],
    s: &Option<ReadSignature>,
) -> Result<BegunBody, AllocError>
    ensures { IfOk result (IsMethodBegun owner.now.layout.now owner.now.names.now owner.now.ty (map ids_of owner.now.extends.now) member (map param_tree params.now) s.now) }
{
    let spot = Spot::of_body(alloc, owner.layout, owner.ty)?;
    let instances = member_instances(alloc, owner.layout, owner.ty, member)?;
    let given = given_result(s);
    let site = site_at(owner, &spot, instances.as_slice(), &[], given);
    begin_body(alloc, &site, params, param_types(s))
}

/// What is wrong in the body of a method, of which this was checked.
#[tactic(auto, using(crate::proofs::BodySteps::method_steps))]
fn go_on_method(
    alloc: Global,
    owner: &Owner<'_>,
    o: &Oracle,
    member: Scope,
    ss: &[Stmt],
    body: BegunBody,
    progress: &mut BodyProgress,
) -> Result<DiagList, Need>
    requires { progress.old.begun ≡ None }
    ensures reads { Reads (reply_to o.now) (method_statements_left owner.now.layout.now owner.now.names.now owner.now.ty (map ids_of owner.now.extends.now) member (stmt_trees ss.now) body) result }
    ensures left { IfSome progress.new.begun (IsFurther o.now (method_statements_left owner.now.layout.now owner.now.names.now owner.now.ty (map ids_of owner.now.extends.now) member (stmt_trees ss.now)) body) }
    ensures new { OnOk result (progress.new.begun ≡ None) }
{
    let spot = Spot::of_body(alloc, owner.layout, owner.ty)?;
    let instances = member_instances(alloc, owner.layout, owner.ty, member)?;
    let site = site_at(owner, &spot, instances.as_slice(), &[], body.result);
    go_on(alloc, &site, o, ss, body, progress)
}

/// What is wrong in the body of a method, of which nothing was checked.
#[tactic(auto, using(crate::proofs::BodySteps::method_steps))]
fn start_method(
    alloc: Global,
    owner: &Owner<'_>,
    o: &Oracle,
    member: Scope,
    params: &[Param],
    ss: &[Stmt],
    progress: &mut BodyProgress,
) -> Result<DiagList, Need>
    requires { progress.old.begun ≡ None }
    ensures reads { Reads (reply_to o.now) (statements_rule owner.now.layout.now owner.now.names.now owner.now.ty (map ids_of owner.now.extends.now) member (map param_tree params.now) (stmt_trees ss.now)) result }
    ensures left { IfSome progress.new.begun (λ b. IsBodySoFar o.now owner.now.layout.now owner.now.names.now owner.now.ty (map ids_of owner.now.extends.now) member (map param_tree params.now) (stmt_trees ss.now) (Some b)) }
    ensures new { OnOk result (progress.new.begun ≡ None) }
{
    let s = read_method_signature(alloc, owner.layout, o, member, params, ss)?;
    let body = begin_method(alloc, owner, member, params, &s)?;
    go_on_method(alloc, owner, o, member, ss, body, progress)
}

/// What is wrong in the body of a method, by how far its check came.
#[tactic(auto, using(crate::proofs::BodySteps::method_steps))]
fn read_body(
    alloc: Global,
    owner: &Owner<'_>,
    o: &Oracle,
    member: Scope,
    params: &[Param],
    ss: &[Stmt],
    progress: &mut BodyProgress,
) -> Result<DiagList, Need>
    requires { IsBodySoFar o.now owner.now.layout.now owner.now.names.now owner.now.ty (map ids_of owner.now.extends.now) member (map param_tree params.now) (stmt_trees ss.now) progress.old.begun }
    ensures reads { Reads (reply_to o.now) (statements_rule owner.now.layout.now owner.now.names.now owner.now.ty (map ids_of owner.now.extends.now) member (map param_tree params.now) (stmt_trees ss.now)) result }
    ensures left { IsBodySoFar o.now owner.now.layout.now owner.now.names.now owner.now.ty (map ids_of owner.now.extends.now) member (map param_tree params.now) (stmt_trees ss.now) progress.new.begun }
    ensures new { OnOk result (progress.new.begun ≡ None) }
{
    match progress.take() {
        None => start_method(alloc, owner, o, member, params, ss, progress),
        Some(body) => go_on_method(alloc, owner, o, member, ss, body, progress),
    }
}

/// What is wrong in the body of a method of a type (JLS 8.4.7), as far as the replies tell it, or the first query that has no
/// reply. The check goes on from where the progress says that it came to, and leaves there how far it came: where a reply is missing,
/// the statements before the one at the top of the body that asked for it are not read again. With the diagnostics nothing is begun.
/// The method's own signature is read where it has parameters, or a `return` stands in its body.
#[tactic(auto, using(crate::proofs::BodySteps::method_steps))]
pub fn read_method_body(
    alloc: Global,
    l: &Layout,
    n: &Names,
    o: &Oracle,
    ty: Scope,
    extends: &[Name],
    member: Scope,
    method: &Method,
    progress: &mut BodyProgress,
) -> Result<DiagList, Need>
    requires { IsMethodSoFar o.now l.now n.now ty (map ids_of extends.now) member (method_tree method.now) progress.old }
    ensures reads { Reads (reply_to o.now) (method_rule l.now n.now ty (map ids_of extends.now) member (method_tree method.now)) result }
    ensures left { IsMethodSoFar o.now l.now n.now ty (map ids_of extends.now) member (method_tree method.now) progress.new }
    ensures new { OnOk result (progress.new.begun ≡ None) }
{
    let owner = Owner {
        layout: l,
        names: n,
        ty,
        extends,
    };
    match &method.body {
        None => {
            *progress = BodyProgress::new();
            Ok(DiagList::empty(alloc))
        }
        Some(ss) => read_body(
            alloc,
            &owner,
            o,
            member,
            method.params.as_slice(),
            ss.as_slice(),
            progress,
        ),
    }
}

/// The super call of a constructor, where it has one (JLS 8.8.7.1).
#[tactic(auto, using(crate::proofs::StatementEnds::end_steps))]
fn check_super(
    alloc: Global,
    site: &Site<'_>,
    o: &Oracle,
    call: &Option<(u32, Vec<Expr>)>,
    locals: &[Local],
    ds: &mut DiagList,
) -> Result<(), Need>
    requires { site.now.spot.now.file < 2 ^ 31 }
    ensures { ReadsScope o.now (super_checked (site_of site.now) (option_map (λ x. (x.0, expr_trees x.1.items)) call.now) (locals.now, ds.old)) result locals.now ds.new }
{
    match call {
        None => Ok(()),
        Some((at, es)) => {
            let arguments = check_arguments(alloc, site, o, locals, es.as_slice(), ds)?;
            check_super_constructor(alloc, site, o, *at, arguments.as_slice(), ds)?;
            Ok(())
        }
    }
}

/// A constructor with this signature, behind its parameters and its super call.
#[tactic(auto, using(crate::proofs::BodySteps::begin_steps))]
fn begin_ctor(
    alloc: Global,
    owner: &Owner<'_>,
    o: &Oracle,
    ctor: &Ctor,
    s: &Option<ReadSignature>,
) -> Result<BegunBody, Need>
    ensures reads { Reads (reply_to o.now) (ctor_call owner.now.layout.now owner.now.names.now owner.now.ty (map ids_of owner.now.extends.now) (ctor_tree ctor.now) s.now) (begun_scope result) }
    ensures count { IfOk result (λ b. b.count ≡ 0) }
{
    let spot = Spot::of_body(alloc, owner.layout, owner.ty)?;
    let outer = instance_bodies(alloc, owner.layout, owner.ty)?;
    let site = site_at(owner, &spot, outer.as_slice(), &[], None);
    let mut body = begin_body(alloc, &site, ctor.params.as_slice(), param_types(s))?;
    check_super(
        alloc,
        &site,
        o,
        &ctor.call,
        body.locals.as_slice(),
        &mut body.diags,
    )?;
    Ok(body)
}

/// What is wrong in a constructor, of which this was checked.
#[tactic(auto, using(crate::proofs::BodySteps::ctor_steps))]
fn go_on_ctor(
    alloc: Global,
    owner: &Owner<'_>,
    o: &Oracle,
    blanks: &[Scope],
    ctor: &Ctor,
    body: BegunBody,
    progress: &mut BodyProgress,
) -> Result<DiagList, Need>
    requires { progress.old.begun ≡ None }
    ensures reads { Reads (reply_to o.now) (ctor_statements_left owner.now.layout.now owner.now.names.now owner.now.ty (map ids_of owner.now.extends.now) blanks.now (ctor_tree ctor.now) body) result }
    ensures left { IfSome progress.new.begun (IsFurther o.now (ctor_statements_left owner.now.layout.now owner.now.names.now owner.now.ty (map ids_of owner.now.extends.now) blanks.now (ctor_tree ctor.now)) body) }
    ensures new { OnOk result (progress.new.begun ≡ None) }
{
    let spot = Spot::of_body(alloc, owner.layout, owner.ty)?;
    let inner = own_instances(alloc, owner.layout, owner.ty)?;
    let site = site_at(owner, &spot, inner.as_slice(), blanks, None);
    go_on(alloc, &site, o, ctor.body.as_slice(), body, progress)
}

/// What is wrong in a constructor, of which nothing was checked.
#[tactic(auto, using(crate::proofs::BodySteps::ctor_steps))]
fn start_ctor(
    alloc: Global,
    owner: &Owner<'_>,
    o: &Oracle,
    blanks: &[Scope],
    member: Scope,
    ctor: &Ctor,
    progress: &mut BodyProgress,
) -> Result<DiagList, Need>
    requires { progress.old.begun ≡ None }
    ensures reads { Reads (reply_to o.now) (ctor_rule owner.now.layout.now owner.now.names.now owner.now.ty (map ids_of owner.now.extends.now) blanks.now member (ctor_tree ctor.now)) result }
    ensures left { IfSome progress.new.begun (λ b. IsCtorSoFar o.now owner.now.layout.now owner.now.names.now owner.now.ty (map ids_of owner.now.extends.now) blanks.now member (ctor_tree ctor.now) (Some b)) }
    ensures new { OnOk result (progress.new.begun ≡ None) }
{
    let s = read_ctor_signature(alloc, owner.layout, o, member, ctor)?;
    let body = begin_ctor(alloc, owner, o, ctor, &s)?;
    go_on_ctor(alloc, owner, o, blanks, ctor, body, progress)
}

/// What is wrong in the body of a constructor of a type, which may assign these blank final fields (JLS 8.8.7), as far as the replies
/// tell it, or the first query that has no reply. The check goes on as that of a method does, once behind the super call. The
/// constructor's own signature is read where it has parameters.
#[tactic(auto, using(crate::proofs::BodySteps::ctor_steps))]
pub fn read_ctor_body(
    alloc: Global,
    l: &Layout,
    n: &Names,
    o: &Oracle,
    ty: Scope,
    extends: &[Name],
    blanks: &[Scope],
    member: Scope,
    ctor: &Ctor,
    progress: &mut BodyProgress,
) -> Result<DiagList, Need>
    requires { IsCtorSoFar o.now l.now n.now ty (map ids_of extends.now) blanks.now member (ctor_tree ctor.now) progress.old.begun }
    ensures reads { Reads (reply_to o.now) (ctor_rule l.now n.now ty (map ids_of extends.now) blanks.now member (ctor_tree ctor.now)) result }
    ensures left { IsCtorSoFar o.now l.now n.now ty (map ids_of extends.now) blanks.now member (ctor_tree ctor.now) progress.new.begun }
    ensures new { OnOk result (progress.new.begun ≡ None) }
{
    let owner = Owner {
        layout: l,
        names: n,
        ty,
        extends,
    };
    match progress.take() {
        None => start_ctor(alloc, &owner, o, blanks, member, ctor, progress),
        Some(body) => go_on_ctor(alloc, &owner, o, blanks, ctor, body, progress),
    }
}
