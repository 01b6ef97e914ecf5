// Lists of words, with commas between them.
ghost use Rattle.std.specs.Prelude.{◌≡◌, reverse};
ghost use Rattle.httparse.specs.Grammar.{skip_ows, trim_ows};
ghost use Rattle.http_heads.specs.Members.{is_member, lists};

use httparse::is_space_or_tab;

fn behind_blanks(bytes: &[u8]) -> &[u8]
    ensures { result.now ≡ skip_ows bytes.now }
{
    let mut rest = bytes;
    while let Some((first, others)) = rest.split_first() {
        if !is_space_or_tab(*first) {
            break;
        }
        rest = others;
    }
    rest
}

fn before_blanks(bytes: &[u8]) -> &[u8]
    ensures { result.now ≡ reverse (skip_ows (reverse bytes.now)) }
{
    let mut front = bytes;
    while let Some((last, others)) = front.split_last() {
        if !is_space_or_tab(*last) {
            break;
        }
        front = others;
    }
    front
}

#[tactic(auto, unfolding(httparse::specs::Grammar::trim_ows))]
fn trimmed(bytes: &[u8]) -> &[u8]
    ensures { result.now ≡ trim_ows bytes.now }
{
    before_blanks(behind_blanks(bytes))
}

fn is_member(text: &[u8], word: &[u8]) -> bool
    ensures { result ≡ is_member word.now text.now }
{
    trimmed(text).eq_ignore_ascii_case(word)
}

/// Whether the word stands in the list, in any case and with white space around it.
pub(crate) fn lists(list: &[u8], word: &[u8]) -> bool
    ensures { result ≡ lists word.now list.now }
{
    list.split(|byte| *byte == b',')
        .any(|member| is_member(member, word))
}
