// Examples of the definitions that the filters' contracts cite, proved by computation.
#![tactic(auto)]

ghost use Rattle.worked_examples.specs.Examples.{WorkedExamples};
ghost use Rattle.worked_examples.specs.Differences.{Differences};

// Those of document 01, and of 02 those for the requests e, c, a, f, i, h, b, k, j, l and g.
pub fn worked_examples()
    ensures { WorkedExamples }
{}

// Those of docs/DIFFERENCES.md.
pub fn differences()
    ensures { Differences }
{}
