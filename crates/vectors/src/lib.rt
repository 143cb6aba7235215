// Worked image files.
//
// Job: states five worked files, the two smallest and three damaged ones, as one table of cases.
// May use: tables, imageformat, imagefile.
// Main promise: the definitions of the format and of its faults say of each case what the table says.

#![tactic(auto)]

ghost use Rattle.std.specs.Prelude.{◌≡◌, length};
ghost use Rattle.vectors.specs.Vectors.{vectors, EveryHolds};

// The number of cases; each of them holds.
#[tactic(auto, using(crate::proofs::Cases::all_hold))]
pub fn vectors_hold() -> usize
    ensures count { result ≡ length vectors }
    ensures hold { EveryHolds vectors }
{
    5
}
