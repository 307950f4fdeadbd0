// All folders at once.
ghost use Rattle.std.specs.Prelude.{◌≡◌, ◌≤◌, [], Some, length, map, vec_capacity};
ghost use Rattle.partition_board.specs.Homes.{AllHere};

// All folders come home. What held them is empty then, with its room.
pub(crate) fn settle<F>(folders: &mut Vec<F>, mut homes: Vec<Option<F>>) -> Vec<Option<F>>
    requires empty { homes.items ≡ [] }
    requires room { length folders.old.items ≤ vec_capacity homes }
    ensures homes { result.items ≡ map Some folders.old.items }
    ensures folders { folders.new.items ≡ [] }
    ensures capacity { length folders.old.items ≤ vec_capacity folders.new }
{
    while let Some(folder) = folders.pop() {
        homes.push_reserved(Some(folder));
    }
    homes.reverse();
    homes
}

// All folders, where none is away.
pub(crate) fn gather<F>(mut homes: Vec<Option<F>>, mut spare: Vec<F>) -> Vec<F>
    requires here { AllHere homes.items }
    requires empty { spare.items ≡ [] }
    requires room { length homes.items ≤ vec_capacity spare }
    ensures { map Some result.items ≡ homes.items }
{
    while let Some(home) = homes.pop() {
        let Some(folder) = home else {
            unreachable!();
        };
        spare.push_reserved(folder);
    }
    homes.destroy_empty();
    spare.reverse();
    spare
}
