// The room for a list.
ghost use Rattle.std.specs.Prelude.{◌≡◌, ◌+◌, ◌≤◌, length};
ghost use Rattle.std.proofs.lemmas.List.Edits.{sets};

// Writes cells from the place `to` on.
pub fn put<const N: usize>(room: &mut [u32], to: usize, cells: [u32; N])
    requires { to + N ≤ length room.old }
    ensures { room.new ≡ sets room.old to cells.entry }
{
    room[to..to + N].copy_from_slice(&cells);
}
