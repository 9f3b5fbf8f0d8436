// Laws on routes, each the contract of a function that does nothing.
ghost use Rattle.smithy_router.specs.Laws.{TestsDecide, SomeIsBest, BestIsOne};

/// The tests on routes decide how routes stand to each other, over all methods and targets.
pub fn tests_decide()
    ensures { TestsDecide }
{}

/// In a list without conflicts, for each method and target that some route matches, one matching route beats each other.
pub fn some_is_best()
    ensures { SomeIsBest }
{}

/// And it is the only one.
pub fn best_is_one()
    ensures { BestIsOne }
{}
