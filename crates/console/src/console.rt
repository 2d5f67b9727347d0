// What stands at the console. Each call takes the allocator, the console and the text apart, for it is lent the console as it needs it: to change, to look at, or not at all.
use judges::AnyJudge;
use preferences::Policy;
use rack::Rack;

/// The rack at the console, or none.
pub type Console = Option<Rack<AnyJudge, Policy>>;
