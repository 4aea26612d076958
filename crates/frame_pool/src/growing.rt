// A list that grows within the room that it has.
ghost use Rattle.std.specs.Prelude.{◌≡◌, ◌-◌, ◌≤◌, ◌++◌, length, replicate, vec_capacity};

/// Adds items that are alike at the end, up to this many, for which there is room.
pub(crate) fn grow<T: Copy + Drop>(items: &mut Vec<T>, len: usize, item: T)
    requires { len ≤ vec_capacity items.old }
    ensures items { items.new.items ≡ items.old.items ++ replicate (len - length items.old.items) item }
    ensures capacity { vec_capacity items.old ≤ vec_capacity items.new }
{
    if items.len() < len {
        match items.resize(len, item) {
            Ok(_) => (),
            Err(_) => unreachable!(),
        }
    }
}
