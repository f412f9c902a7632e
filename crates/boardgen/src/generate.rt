ghost use Rattle.std.specs.Prelude.{◌≡◌, IfOk, codes, Decides};
ghost use Rattle.boardgen.specs.Generated.{PrintedFor, WrittenOr0, pool_printed};

use board::{Pool, Refusal};
use board_text::{refusal_line, text_of};
use std::alloc::{AllocError, Global};

// Whether the word asks for a pool board.
pub fn names_pool(word: &str) -> bool
    ensures { Decides result (word.now ≡ codes "pool") }
{
    word == "pool"
}

// The number that the word writes in decimal digits, or 0 where it writes none up to 255. No `Option`: both
// are refused alike.
fn number_in(word: &str) -> u8
    ensures { WrittenOr0 word.now result }
{
    word.parse::<u8>().unwrap_or(0)
}

// The text of the pool board with so many buffers, or the refusal's line, which has the line number 0.
fn pool_board_text(heap: Global, buffers: u8) -> Result<Vec<u8>, AllocError>
    ensures { IfOk result (λ v. v.items ≡ pool_printed buffers) }
{
    match Pool::new(buffers) {
        Ok(pool) => text_of(heap, &pool),
        Err(refusal) => Vec::from_slice(heap, &refusal_line(refusal.number(), 0)),
    }
}

// What is printed for a pool board with as many buffers as the word writes.
pub fn pool_text(heap: Global, word: &str) -> Result<Vec<u8>, AllocError>
    ensures { IfOk result (λ v. PrintedFor word.now v.items) }
{
    pool_board_text(heap, number_in(word))
}

#[cfg(test)]
mod tests {
    use super::*;
    use board_text::reformat;
    use std::process::Abort;
    use std::test::Fail;

    fn check_printed(
        rt: &impl Abort,
        heap: Global,
        word: &str,
        printed: &[u8],
    ) -> Result<(), Fail> {
        let text = pool_text(heap, word)?;
        assert!(rt; text.as_slice() == printed, "{word:?}");
        Ok(())
    }

    #[test]
    fn knows_no_other_board(rt: HostRuntime) {
        assert!(rt; names_pool("pool"));
        for word in &["table", "Pool", "pools", "poo", "", "7"] {
            assert!(rt; !names_pool(word), "{word:?}");
        }
    }

    #[test]
    fn refuses_every_word_but_1_to_7(rt: HostRuntime) -> Result<(), Fail> {
        for word in &["0", "8", "255", "256", "300", "-1", "1.5", "x", "", " 1"] {
            check_printed(&rt, rt.alloc(), word, b"1F1A0000\n")?;
        }
        Ok(())
    }

    // Reading the text and writing the board back gives the same text, and so the text is a board's.
    #[test]
    fn prints_a_board_for_1_to_7(rt: HostRuntime) -> Result<(), Fail> {
        for (word, positions) in &[("1", 8), ("2", 18), ("3", 32), ("07", 128), ("+7", 128)] {
            let text = pool_text(rt.alloc(), word)?;
            let back = reformat(rt.alloc(), text.as_slice())?;
            assert!(rt; back.text.as_slice() == text.as_slice(), "{word:?}");
            let Ok(summary) = back.outcome else {
                return Err(Fail::new("a pool board is refused"));
            };
            assert_eq!(rt;
                u32::from(summary.controller) + u32::from(summary.kiln),
                *positions
            );
        }
        Ok(())
    }
}
