use board::{Refusal, Summary};
use board_text::TextRefusal;
use std::fmt;

// What was done with a text, for a person to read.
#[derive(Drop)]
pub struct Report {
    pub bytes: usize,
    pub outcome: Result<Summary, (TextRefusal, u16)>,
}

// The labels that are met, each with how many positions bear it.
fn write_labels<W: fmt::Write>(labels: &[u16; 16], f: &mut fmt::Formatter<W>) -> fmt::Result {
    for (label, positions) in labels.iter().enumerate() {
        if *positions > 0 {
            write!(f, " {label} ({positions})")?;
        }
    }
    Ok(())
}

impl fmt::Display for Report {
    fn fmt<W: fmt::Write>(&self, f: &mut fmt::Formatter<W>) -> fmt::Result {
        write!(f, "{} bytes read; ", self.bytes)?;
        match &self.outcome {
            Ok(summary) => {
                write!(
                    f,
                    "a board with {} controller and {} kiln positions, {} moves; labels met, with the positions that bear them:",
                    summary.controller, summary.kiln, summary.moves
                )?;
                write_labels(&summary.labels, f)
            }
            Err((refusal, line)) => {
                let number = refusal.number();
                write!(f, "refused by {number} at line {line}: {refusal}")
            }
        }
    }
}
