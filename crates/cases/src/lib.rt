// The proved cases of the document: records, and what must come of each. The table stands in specs/ and its proof in proofs/;
// there is no code.
#![tactic(auto)]
