// Packets as the definitions see them: see specs/ and proofs/. The only code is what a table holds in place of a time.
#![tactic(auto)]

// What a table's place holds whose packet is not placed.
// Kept: document 01 says so of a table's place, and `skipped_holds` and `placed` speak of it; so wherever a table is read, this number is.
pub const NO_TIME: u32 = 4_294_967_295;
