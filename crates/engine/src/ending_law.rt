ghost use Rattle.engine.specs.EndingLaw.{EndingsAreTold};

/// An accepted post or void ends the pending transfer that is told, which was open before and is in
/// the told state after. Every other pending transfer keeps its fate, but for what the clock does.
/// It does nothing, as the other laws.
pub fn endings_are_told()
    ensures { EndingsAreTold }
{}
