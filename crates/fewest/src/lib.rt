// The fewest write cycles that take the flash from one content to another: what a list of entries yields, the plan, and why none is shorter.
// It has no code but the tests by which pages are told apart.
#![tactic(auto)]

// Kept: the definitions of `specs/Plan.antt` take the test as a value (`holds`, `any_in`, `test_in`), and a sector's state chooses it.
// Tests of a place by its present byte and its wanted one: they differ; a bit has to rise from 0 to 1; the wanted one is not ff.
#[derive(Clone, Copy, Debug, PartialEq, Eq)]
pub enum Test {
    Differs,
    Rises,
    Unblank,
}
