// The reader of fields: "takes a field and hands the rest of the line on as the part after the tab".
ghost use Rattle.std.specs.Prelude.{◌≡◌, length, position};
ghost use Rattle.line_in.specs.Fields.{is_tab, field, after_tab};

// Where the first tab of a line is.
fn tab(line: &[u8]) -> Option<usize>
    ensures { result ≡ position is_tab line.now }
{
    line.iter().position(|b| *b == b'\t')
}

// How long the first field is; where the line is longer, a tab follows it.
pub fn field_len(line: &[u8]) -> usize
    ensures { result ≡ length (field line.now) }
{
    tab(line).unwrap_or(line.len())
}

// The part of the line after the first tab; an empty part where there is no tab.
pub fn after_tab(line: &[u8]) -> &[u8]
    ensures { result.now ≡ after_tab line.now }
{
    match tab(line) {
        Some(n) => &line[n + 1..],
        None => &[],
    }
}
