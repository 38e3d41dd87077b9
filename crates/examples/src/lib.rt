// Example plans, and the table of worked examples that are proved of the definitions.
#![tactic(auto)]

ghost use Rattle.net.specs.Model.{net, Same};
ghost use Rattle.examples.specs.Plans.{net_of_three_moves};
ghost use Rattle.examples.specs.Table.{WorkedExamples};

use net::Plan;

// Three moves over two places, with takes of 4 and 6. Its contract carries the table.
pub fn three_moves() -> Plan
    ensures plan { Same (net result) net_of_three_moves }
    ensures table { WorkedExamples }
{
    Plan::new(2, 3, &[4, 0, 6, 0, 0, 1], &[0, 2, 0, 3, 2, 0]).unwrap()
}
