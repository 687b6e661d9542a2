//! What texts are written of trees that were set or made, and the words of faults. Texts that list objects, and the
//! fault of each line that lists none, are rows of `tools/rows/ocadev.toml`.
mod copies;
mod faults;

use crate::tests::all_agree;

#[test]
fn a_tree_is_read_back_from_its_text(rt: HostRuntime) {
    all_agree(&rt, "faults of texts have words", faults::DISPLAYED);
    all_agree(&rt, "the bench is read back", copies::BENCHES);
    all_agree(&rt, "a set object is written and read back", copies::SETS);
    all_agree(&rt, "a number is written and read back", copies::NUMBERS);
}
