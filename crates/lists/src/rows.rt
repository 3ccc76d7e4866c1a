ghost use Rattle.std.specs.Prelude.{◌≡◌, ◌^◌, ◌<◌};
ghost use Rattle.lists.specs.Rows.{row_of, node_of, freedom_of};

/// The row of a node's freedom.
pub fn row_of(node: u32, freedom: u32) -> u32
    requires { row_of node freedom < 2 ^ 32 }
    ensures { result ≡ row_of node freedom }
{
    6 * node + freedom
}

/// The node of a row.
pub fn node_of(row: u32) -> u32
    ensures { result ≡ node_of row }
{
    row / 6
}

/// The freedom of a row, 0 to 5.
pub fn freedom_of(row: u32) -> u32
    ensures value { result ≡ freedom_of row }
    ensures range { result < 6 }
{
    row % 6
}
