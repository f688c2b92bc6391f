ghost use Rattle.ring_model.specs.Safety.{EveryRunAppliesChosen, EveryRunIsSafe};
ghost use Rattle.ring_lawful.specs.EachStep.{EveryFirstNodeIsLawful, EveryMessageIsNearlyWellFormed, EveryRecoveryIsLawful, EveryStepIsPossible, EveryStepKeepsLawful, EveryStepSendsWellFormed};
ghost use Rattle.ring_lawful.specs.Lawful.{EveryLogIsValid, EveryNodeIsSound, EveryPlanIsPossible, EveryRunChoosesValid, EveryRunningNodeIsLawful};

/// Every run of every ring is safe. What is applied or committed is a prefix of the chosen sequence;
/// what a client was told stands in it, and in the log of each leader from that term on; no term is
/// led twice; prepared transactions agree with the log; the chosen sequence is valid and has no GTID
/// twice; logs with an entry of one opid are equal up to it; the chosen sequence only grows, by a
/// node that was elected in its term, and no event is torn. And each later leader has what was
/// committed.
pub fn law_safe()
    ensures { EveryRunIsSafe }
{}

/// In the world after any run of any ring the rows that a node's engine has applied are those of the
/// first so many entries of the chosen sequence, and none of these was refused.
pub fn law_rows()
    ensures { EveryRunAppliesChosen }
{}

/// In the world after any run of any ring each transaction of the chosen sequence is accepted by the
/// rows of those before it, and no GTID comes twice.
pub fn law_chosen_is_valid()
    ensures { EveryRunChoosesValid }
{}

/// The same of the log of each node, running or down, whether its entries are chosen or not.
pub fn law_logs_are_valid()
    ensures { EveryLogIsValid }
{}

/// In the world after any run the durable part of each node, running or down, is sound, and the
/// payloads of its log fit the schema.
pub fn law_sound()
    ensures { EveryNodeIsSound }
{}

/// In the world after any run each running node is lawful.
pub fn law_lawful()
    ensures { EveryRunningNodeIsLawful }
{}

/// In the world after any run the actions that a running node plans, on any input that it may be
/// given, are possible, each where its turn comes; and so is what a restart does first.
pub fn law_possible()
    ensures { EveryPlanIsPossible }
{}

/// In the world after any run each message is well formed, but that the groups of an Append may have
/// any sum of bytes, since a proxy does not count them.
pub fn law_messages()
    ensures { EveryMessageIsNearlyWellFormed }
{}

/// Each step of a lawful node whose log's payloads fit the schema, on any input whose message is well
/// formed and whose write has a change, leaves such a node.
pub fn law_step_lawful()
    ensures { EveryStepKeepsLawful }
{}

/// The actions of such a step are possible, each where its turn comes, and after any first so many of
/// them the durable part is sound and its payloads fit the schema.
pub fn law_step_possible()
    ensures { EveryStepIsPossible }
{}

/// What such a step sends is well formed, but for the sum of bytes of an Append that a proxy builds.
pub fn law_step_sends()
    ensures { EveryStepSendsWellFormed }
{}

/// Recovery makes a lawful node of any sound durable part; what a restart does is possible, comes to
/// that, and leaves a sound durable part after any first so many of its actions.
pub fn law_recovery()
    ensures { EveryRecoveryIsLawful }
{}

/// The empty durable part is sound, and the node that starts on it lawful.
pub fn law_first_lawful()
    ensures { EveryFirstNodeIsLawful }
{}
