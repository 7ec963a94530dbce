ghost use Rattle.std.specs.Prelude.{◌≡◌, ◌≤◌, ◌+◌, ◌++◌, [], length, vec_capacity};

/// Moves what stands in a log from a place on to a list that has nothing yet, and room for it. Takes no memory.
pub(crate) fn take_back<E>(log: &mut Vec<E>, before: usize, events: &mut Vec<E>)
    requires none { events.old.items ≡ [] }
    requires before { before ≤ length log.old.items }
    requires room { length log.old.items ≤ before + vec_capacity events.old }
    ensures log { length log.new.items ≡ before }
    ensures all { log.new.items ++ events.new.items ≡ log.old.items }
{
    for _n in before..log.len() {
        match log.pop() {
            Some(entry) => events.push_reserved(entry),
            None => unreachable!(),
        }
    }
    events.reverse();
}
