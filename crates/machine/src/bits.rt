//! The bits of a word, one after another.

ghost use Rattle.std.specs.Prelude.{◌≡◌, IfSome, None};
ghost use Rattle.machine.specs.Marked.{LosesBit};

// Takes the lowest bit of a word out of it, and answers which it was; none if the word has no bit.
#[inline(always)]
pub(crate) fn take_lowest(word: &mut u64) -> Option<usize>
    ensures taken { IfSome result (λ bit. LosesBit word.old word.new bit) }
    ensures none { result ≡ None → word.old ≡ 0 }
{
    if *word == 0 {
        return None;
    }
    let bit = word.trailing_zeros() as usize;
    *word &= !(1 << bit);
    Some(bit)
}
