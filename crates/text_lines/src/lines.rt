//! The lines of a text, each ended by a line feed.
ghost use Rattle.std.specs.Prelude.{◌≡◌, ◌∷◌, ◌++◌, ◌≤◌, IfSome, IfNone, length};
ghost use Rattle.text_lines.specs.Lines.{line_len, HasNoFeed};

/// The bytes up to the next line feed, and those behind it, if there is one. It takes time in proportion to
/// the line.
#[tactic(auto, using(crate::proofs::LineSplits::line_split, crate::proofs::LineSplits::line_no_feed_at, crate::proofs::LineSplits::all_no_feed))]
pub fn next_line(bytes: &[u8]) -> Option<(&[u8], &[u8])>
    ensures found { IfSome result (λ x. bytes.now ≡ x.0.now ++ 10 ∷ x.1.now) }
    ensures line { IfSome result (λ x. HasNoFeed x.0.now) }
    ensures none { IfNone result (HasNoFeed bytes.now) }
{
    let len = line_len(bytes);
    if len < bytes.len() {
        Some((&bytes[..len], &bytes[len + 1..]))
    } else {
        None
    }
}

/// How many bytes stand before the next line feed.
fn line_len(bytes: &[u8]) -> usize
    ensures len { result ≡ line_len bytes.now }
    ensures bound { result ≤ length bytes.now }
{
    let mut len = 0;
    for b in bytes {
        if *b == b'\n' {
            return len;
        }
        len += 1;
    }
    len
}
