// Where a statement is undefined.

/// Where a statement was undefined: the kind (1 a division by 0, 2 a shift by the width or more,
/// 3 an array index past the count, 4 a null pointer, 5 a call through another type, 6 an access
/// past a memory's length, 7 a place past a table's length, 8 an argument of a primitive out of
/// its range), the unit and the item, counted from 0, and the statement, counted from 1.
#[derive(Clone, Copy, Debug, PartialEq, Eq)]
pub struct UndefinedAt {
    pub kind: u32,
    pub unit: usize,
    pub item: usize,
    pub statement: usize,
}
