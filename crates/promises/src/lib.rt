// The promises on the module as a whole. They are stated in specs/ and proved in proofs/; there is no code.
//
// specs/Demands        what the customer's demands say beyond the contracts of the calls, in one place: all that follows here
// specs/OneAnswer      no second answer fits a contract
// specs/NotMade        records that no call has made, worked out
// specs/MadeByCalls    what is so of every device that calls have made
// specs/AtTheDevice    demand 2 at a device: pages are read back, and nothing else, over the edges that it takes
// specs/SmallDamage    what the check bits are worth: no small damage makes another page of a page
// specs/BothEnds       the two ends of a link settle on the same rate, with opposite roles
// specs/TwoPasts       demand 3: no page outlives its link; and for one module: after Break no answer depends on any page heard before it
// specs/WorkedPasts    three pasts for which demand 3 is worked out
// specs/Table          P1-P14
// specs/FirstLink      a link from a fresh device through every state to Up
// specs/Refusals       an input for each refusal number, and what it leaves
// specs/NextPageLinks  links on which Next Pages are exchanged, worked out
// specs/NextPageFacts  what holds of Next Pages at every device
#![tactic(auto)]
