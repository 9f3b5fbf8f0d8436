// Laws on requests that were placed, each the contract of a function that does nothing.
ghost use Rattle.smithy_routed.specs.Laws.{PlacedIsMatched};

/// Every request that is placed by a schema with `@http`, whose template is routable, is matched by the template's route.
pub fn placed_is_matched()
    ensures { PlacedIsMatched }
{}
