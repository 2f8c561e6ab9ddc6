//! Which modes conflict, by PostgreSQL's table.

ghost use Rattle.std.specs.Prelude.{◌<◌};

// PostgreSQL's table of conflicts: a row for each mode that is asked for, in the order of their numbers, and
// in it a place for each mode that another session has, 1 where the two conflict.
static CONFLICTS: [[u8; 8]; 8] = [
    [0, 0, 0, 0, 0, 0, 0, 1],
    [0, 0, 0, 0, 0, 0, 1, 1],
    [0, 0, 0, 0, 1, 1, 1, 1],
    [0, 0, 0, 1, 1, 1, 1, 1],
    [0, 0, 1, 1, 0, 1, 1, 1],
    [0, 0, 1, 1, 1, 1, 1, 1],
    [0, 1, 1, 1, 1, 1, 1, 1],
    [1, 1, 1, 1, 1, 1, 1, 1],
];

/// Whether the server's table has the modes at the places `asked` and `held` in conflict.
pub fn conflicts(asked: usize, held: usize) -> bool
    requires asked { asked < 8 }
    requires held { held < 8 }
{
    CONFLICTS[asked][held] == 1
}
