// Between any two calls, text and keep are settled.
ghost use Rattle.rules.specs.Settled.{SessionsSettled};

pub fn sessions_settle()
    ensures { SessionsSettled }
{}
