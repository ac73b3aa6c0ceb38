// The order of moves: paths along waits, what is before what, running orders, and the laws about them.
// It is theory alone: specs/ has the definitions and the laws, proofs/ their proofs, and the layers above cite them in their contracts.
#![tactic(auto)]
