// The lifted terms of a clause: a function at variables each. The i-th has the new variable i.
ghost use Rattle.std.specs.Prelude.{◌≡◌, ◌+◌, ◌<◌, ◌≤◌, take};
ghost use Rattle.std.specs.List.{position};
ghost use Rattle.theory.specs.Problem.{max_words};
ghost use Rattle.lifting.specs.Rows.{row_of, same_row, shared};

use syntax::limits::Problem;

// A function at variables: as many as the largest arity, 0 where it has fewer. A variable is its place: the clause's own in order, then the new ones.
#[derive(Clone, Copy, PartialEq, Eq)]
pub struct Row {
    pub function: u8,
    pub arguments: [u8; Problem::MAX_ARITY],
}

#[derive(Clone, Copy)]
pub struct Table {
    pub rows: [Row; Problem::MAX_TERMS],
    pub count: usize,
}

// The variable of this term: that of an equal one, or a new one.
pub fn share(table: &mut Table, owns: u8, row: Row) -> u8
    requires { (table.old.count < max_words) × (owns ≤ 8) }
    ensures variable { result ≡ owns + row_of table.old row }
    ensures held { table.new ≡ shared table.old row }
{
    match find(table, row) {
        Some(i) => owns + i as u8,
        None => {
            let i = table.count;
            table.rows[i] = row;
            table.count = i + 1;
            owns + i as u8
        }
    }
}

// The place of an equal term.
fn find(table: &Table, row: Row) -> Option<usize>
    requires { table.now.count ≤ max_words }
    ensures { result ≡ position (λ other. same_row other row) (take table.now.count table.now.rows) }
{
    table.rows[..table.count]
        .iter()
        .position(|other| same_row(*other, row))
}

// Whether two rows are equal.
fn same_row(a: Row, b: Row) -> bool
    ensures { result ≡ same_row a b }
{
    a == b
}
