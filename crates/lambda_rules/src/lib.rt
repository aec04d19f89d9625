//! The lambda rules of Mead and Conway over the squares of a drawing and its labels, and the findings of a check.
#![tactic(auto)]
