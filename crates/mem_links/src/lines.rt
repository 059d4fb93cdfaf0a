//! Looks for a line among bytes to which more come.
ghost use Rattle.std.specs.Prelude.{◌≡◌, false, position};
ghost use Rattle.floor_text.specs.Lines.{is_line_feed};
ghost use Rattle.mem_links.specs.Lines.{has_line, IsSearched};

/// Answers whether a whole line that begins with `front` is among the bytes, of which the first were searched before.
/// Where none is, moves `searched` behind the last whole line.
pub(crate) fn find_line(put: &[u8], searched: &mut usize, front: &[u8]) -> bool
    requires { IsSearched front.now put.now searched.old }
    ensures found { result ≡ has_line front.now put.now }
    ensures searched { result ≡ false → IsSearched front.now put.now searched.new }
{
    'search: while let Some(n) = first_feed(&put[*searched..]) {
        let start = *searched;
        *searched = start + n + 1;
        if put[start..start + n].starts_with(front) {
            return true;
        }
    }
    false
}

/// Gives the index of the first line feed.
fn first_feed(bytes: &[u8]) -> Option<usize>
    ensures { result ≡ position is_line_feed bytes.now }
{
    bytes.iter().position(|byte| *byte == b'\n')
}
