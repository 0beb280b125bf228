// Laws of the two machines, on the wire and without one: what they keep of a board, and a run that is stopped and gone on
// with. There is no code here.
#![tactic(auto)]
