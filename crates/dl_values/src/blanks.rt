// Taking the blanks off a text.
ghost use Rattle.std.specs.Prelude.{◌≡◌, ◌≤◌, length, take, drop};
ghost use Rattle.dl_values.specs.Read.{without_blanks, strip_front, strip_back};

// How many blanks a text begins with.
fn blanks_in_front(text: &[u8]) -> usize
    ensures count { result ≤ length text.now }
    ensures rest { drop result text.now ≡ strip_front text.now }
{
    for (i, b) in text.iter().enumerate() {
        if *b != b' ' {
            return i;
        }
    }
    text.len()
}

// The length of a text without the blanks at its end.
fn length_without_blanks(text: &[u8]) -> usize
    ensures count { result ≤ length text.now }
    ensures front { take result text.now ≡ strip_back text.now }
{
    let mut end = text.len();
    while end > 0 && text[end - 1] == b' ' {
        end -= 1;
    }
    end
}

// The text without the blanks around it.
pub fn stripped(text: &[u8]) -> &[u8]
    ensures { result.now ≡ without_blanks text.now }
{
    let text = &text[blanks_in_front(text)..];
    &text[..length_without_blanks(text)]
}
