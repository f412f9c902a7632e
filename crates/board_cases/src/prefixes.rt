// Texts that are cut short.
use crate::checks::{THREE, judge};

// The cut takes away an LF, or a whole line: so the fault is 11, at the line in which the text ends.
#[test]
fn refuses_every_proper_prefix_at_the_line_in_which_it_ends(rt: HostRuntime) {
    let text = THREE.as_bytes();
    assert_eq!(rt; text.len(), 55);
    assert_eq!(rt; judge(text), (0, 0));
    for length in 0..text.len() {
        // The LFs stand at 6, 21, 36, 47 and 54.
        let line = match length {
            0..=6 => 1,
            7..=21 => 2,
            22..=36 => 3,
            37..=47 => 4,
            _ => 5,
        };
        assert_eq!(rt; judge(&text[0..length]), (11, line), "{length} bytes");
    }
}
