//! What mirrors serve of a payload, and which turns of a run bring it from them. Definitions alone.
#![tactic(auto)]
