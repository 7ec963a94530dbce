ghost use Rattle.std.specs.Prelude.{◌≡◌, ◌≤◌, [], ◌∷◌, ◌++◌, length, ◌↔◌, IsTrue, IfOk, OnOk, MatchOption};
ghost use Rattle.sg_base.specs.Graph.{IsGraph};
ghost use Rattle.sg_expr.specs.Tree.{expr_of};
ghost use Rattle.sg_query.specs.Steps.{if_any};
ghost use Rattle.sg_query.specs.Walk.{IsRest, GathersOn, into_scope, into_row, one_more, WalkVisits, WalkVisitsWithin, WalkFinds, WalkFindsAny, WalkArrives, WalkGoesTooFar};

use crate::found::Found;
use crate::going::Going;
use crate::most_paths::MOST_PATHS;
use crate::steps::Steps;
use sg_base::{Graph, Instance, Label, Scope, Step};
use sg_expr::Expr;
use std::alloc::{AllocError, Global};

/// A walk through a graph: where it starts, the words that it follows, and the data that it wants.
#[derive(Drop)]
pub struct Walk<'a, I: Instance> {
    pub alloc: Global,
    pub graph: &'a Graph<I::Datum>,
    pub expr: &'a Expr,
    pub pred: &'a I::Pred,
    pub start: Scope,
}

/// What a walk has seen: the paths that go on and behind which it has still to look, the deepest last, and all paths
/// that reach a wanted datum.
#[derive(Drop)]
struct Seen<D> {
    going: Vec<Going>,
    found: Vec<Found<D>>,
}

impl<I: Instance> Walk<'_, I> {
    /// The paths that reach a wanted datum, or none where more paths go on than an answer looks at.
    ///
    /// Walks depth first on one list of steps, so that a path costs its last step and not its length.
    pub fn arrived(&self) -> Result<Option<Vec<Found<I::Datum>>>, AllocError>
        requires { IsGraph self.now.graph.now }
        ensures { IfOk result (λ o. MatchOption o (WalkGoesTooFar self.now) (λ v. WalkArrives I.wants self.now v.items)) }
    {
        let mut steps = Steps::none(self.alloc);
        let mut seen = Seen {
            going: Vec::new(self.alloc),
            found: Vec::new(self.alloc),
        };
        self.visit(&steps, None, self.expr.copy(self.alloc)?, &mut seen)?;
        let mut room = MOST_PATHS;
        while let Some(going) = seen.going.pop() {
            let Going { depth, last, rest } = going;
            room -= 1;
            steps.go_to(depth, last)?;
            if !self.visit_behind(&steps, rest, room, &mut seen)? {
                return Ok(None);
            }
        }
        Ok(Some(seen.found))
    }

    /// Visits the paths with one step more than these steps, and answers whether there was room for all that go on.
    fn visit_behind(
        &self,
        steps: &Steps,
        rest: Expr,
        room: usize,
        seen: &mut Seen<I::Datum>,
    ) -> Result<bool, AllocError>
        requires fits { length seen.old.going.items ≤ room }
        requires rest { IsRest (expr_of self.now.expr.now) steps.now (expr_of rest) }
        ensures { IfOk result (WalkVisitsWithin I.wants self.now steps.now (one_more self.now.graph.now self.now.start steps.now) room seen.old seen.new) }
    {
        self.visit_one_more(steps, &rest, room, seen)
    }

    /// The same by a borrowed expression.
    fn visit_one_more(
        &self,
        steps: &Steps,
        rest: &Expr,
        room: usize,
        seen: &mut Seen<I::Datum>,
    ) -> Result<bool, AllocError>
        requires fits { length seen.old.going.items ≤ room }
        requires rest { IsRest (expr_of self.now.expr.now) steps.now (expr_of rest.now) }
        ensures { IfOk result (WalkVisitsWithin I.wants self.now steps.now (one_more self.now.graph.now self.now.start steps.now) room seen.old seen.new) }
    {
        for number in 0..16 {
            if !self.visit_row(steps, rest, Label::new(number), room, seen)? {
                return Ok(false);
            }
        }
        Ok(true)
    }

    /// The same for the paths with one step more over a label.
    fn visit_row(
        &self,
        steps: &Steps,
        rest: &Expr,
        label: Label,
        room: usize,
        seen: &mut Seen<I::Datum>,
    ) -> Result<bool, AllocError>
        requires fits { length seen.old.going.items ≤ room }
        requires rest { IsRest (expr_of self.now.expr.now) steps.now (expr_of rest.now) }
        ensures { IfOk result (WalkVisitsWithin I.wants self.now steps.now (into_row self.now.graph.now self.now.start steps.now label) room seen.old seen.new) }
    {
        for to in self.graph.edges_of(steps.end(self.start), label) {
            self.visit_scope(steps, rest, Step { label, to: *to }, seen)?;
            if seen.going.len() > room {
                return Ok(false);
            }
        }
        Ok(true)
    }

    /// Visits the path with one step more, if it passes by the step's scope nowhere.
    fn visit_scope(
        &self,
        steps: &Steps,
        rest: &Expr,
        step: Step,
        seen: &mut Seen<I::Datum>,
    ) -> Result<(), AllocError>
        requires { IsRest (expr_of self.now.expr.now) steps.now (expr_of rest.now) }
        ensures { OnOk result (WalkVisits I.wants self.now steps.now (into_scope self.now.start steps.now step.label step.to) seen.old seen.new) }
    {
        if !steps.is_fresh(self.start, step.to) {
            return Ok(());
        }
        let rest = rest.after(self.alloc, step.label)?;
        self.visit(steps, Some(step), rest, seen)?;
        Ok(())
    }

    /// Adds the path of the steps, and of the last one if it is given, to what was seen, where its word goes on, and
    /// where it reaches a wanted datum.
    fn visit(
        &self,
        steps: &Steps,
        last: Option<Step>,
        rest: Expr,
        seen: &mut Seen<I::Datum>,
    ) -> Result<(), AllocError>
        requires { IsRest (expr_of self.now.expr.now) (steps.now ++ if_any last) (expr_of rest) }
        ensures { OnOk result (WalkVisits I.wants self.now steps.now ((steps.now ++ if_any last) ∷ []) seen.old seen.new) }
    {
        self.visit_end(steps, &last, &rest, seen)?;
        if rest.goes_on() {
            let depth = steps.len();
            seen.going.push(Going { depth, last, rest })?;
        }
        Ok(())
    }

    /// Adds the path to what was found, where it reaches a wanted datum.
    fn visit_end(
        &self,
        steps: &Steps,
        last: &Option<Step>,
        rest: &Expr,
        seen: &mut Seen<I::Datum>,
    ) -> Result<(), AllocError>
        requires { IsRest (expr_of self.now.expr.now) (steps.now ++ if_any last.now) (expr_of rest.now) }
        ensures found { OnOk result (GathersOn (WalkFinds I.wants self.now) ((steps.now ++ if_any last.now) ∷ []) seen.old.found.items seen.new.found.items) }
        ensures going { seen.new.going ≡ seen.old.going }
    {
        if let Some(found) = self.found_at(steps, last, rest)? {
            seen.found.push(found)?;
        }
        Ok(())
    }

    /// The path with its end's datum, where its word belongs and the datum is wanted.
    fn found_at(
        &self,
        steps: &Steps,
        last: &Option<Step>,
        rest: &Expr,
    ) -> Result<Option<Found<I::Datum>>, AllocError>
        requires { IsRest (expr_of self.now.expr.now) (steps.now ++ if_any last.now) (expr_of rest.now) }
        ensures { IfOk result (WalkFindsAny I.wants self.now (steps.now ++ if_any last.now)) }
    {
        if !rest.nullable() {
            return Ok(None);
        }
        match self.graph.datum(steps.end_with(self.start, last)) {
            None => Ok(None),
            Some(datum) => {
                if I::matches(self.pred, datum) {
                    let path = steps.path(self.alloc, self.start, last)?;
                    let datum = I::copy_datum(self.alloc, datum)?;
                    Ok(Some(Found { path, datum }))
                } else {
                    Ok(None)
                }
            }
        }
    }
}
