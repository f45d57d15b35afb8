// What the parts of the C face have in common. The face itself is six crates, one for each part (ring_face, tracker_face, fine_face, scan_face, floats_face, version_face). They offer the calls of the crates below on numbers and
// slices (a slice is a pointer and a length), for firmware and for hosts in other languages. tools/archive makes one archive of them.
// A state is lent as words; the crates ring_words, scan_words, tracker_words and fine_words say where each field is, and what number each answer has. No call has a `requires`. Each returns a
// refusal's number, or 16 or more, which is the case of its answer. A refused call writes nothing. specs/Face.antt says in which order a call judges what it is lent.
#![tactic(auto)]

ghost use Rattle.std.specs.Prelude.{◌≡◌};
ghost use Rattle.face.specs.Face.{setting_first};

// Judges the setting, then the length of a list. Returns 0 if neither is refused.
pub fn setting_first(allowed: bool, fitting: bool) -> u32
    ensures { result ≡ setting_first allowed fitting }
{
    if !allowed {
        return answers::OUTSIDE_TABLE as u32;
    }
    if !fitting {
        return answers::WRONG_LENGTH as u32;
    }
    0
}
