ghost use Rattle.std.specs.Prelude.{◌≢◌, [], Result, IfOk};
ghost use Rattle.std.specs.List.{AllByRecursion};
ghost use Rattle.wire_frames.specs.declared.ends.Outcome.{Outcome};
ghost use Rattle.conn_core.specs.declared.answers.Accepted.{Accepted};
ghost use Rattle.conn_core.specs.declared.answers.AskRefusal.{AskRefusal};
ghost use Rattle.conn_core.specs.declared.answers.CancelRefusal.{CancelRefusal};
ghost use Rattle.conn_core.specs.declared.answers.FrameAnswer.{FrameAnswer};
ghost use Rattle.conn_core.specs.declared.answers.FrameRefusal.{FrameRefusal};
ghost use Rattle.conn_core.specs.declared.answers.LeaseRefusal.{LeaseRefusal};
ghost use Rattle.conn_core.specs.declared.answers.SendRefusal.{SendRefusal};
ghost use Rattle.conn_core.specs.declared.answers.Sending.{Sending};
ghost use Rattle.conn_core.specs.declared.answers.SubmitRefusal.{SubmitRefusal};
ghost use Rattle.conn_core.specs.declared.answers.Ticked.{Ticked};
ghost use Rattle.lease_core.specs.declared.answers.LeaseAnswer.{LeaseAnswer};
ghost use Rattle.lease_core.specs.declared.answers.LeaseState.{LeaseState};
ghost use Rattle.txn_core.specs.declared.phases.TakeRefusal.{TakeRefusal};
ghost use Rattle.wire_frames.specs.declared.ends.Reason.{Reason};
ghost use Rattle.answer_texts.specs.Answers.{asked_text, polled_text, released_text, submitted_text, sent_text, received_text, cancelled_text, collected_text, ticked_text, stopped_text};
ghost use Rattle.answer_texts.specs.Lines.{IsFeedless, IsSpaced};

/// No answer's text has a line feed, so each answer is one line.
pub fn answers_are_lines()
    ensures asked { (answer : Result LeaseAnswer AskRefusal) → IsFeedless (asked_text answer) }
    ensures polled { (answer : Result LeaseState LeaseRefusal) → IsFeedless (polled_text answer) }
    ensures released { (answer : Result (Unit {0}) LeaseRefusal) → IsFeedless (released_text answer) }
    ensures submitted { (answer : Result Accepted SubmitRefusal) → IsFeedless (submitted_text answer) }
    ensures sent { (answer : Result Sending SendRefusal) → IsFeedless (sent_text answer) }
    ensures received { (answer : Result FrameAnswer FrameRefusal) → IsFeedless (received_text answer) }
    ensures cancelled { (answer : Result (Unit {0}) CancelRefusal) → IsFeedless (cancelled_text answer) }
    ensures collected { (answer : Result Outcome TakeRefusal) → IsFeedless (collected_text answer) }
    ensures ticked { (ticked : Ticked) → IsFeedless (ticked_text ticked) }
    ensures stopped { (answer : Result (Unit {0}) Reason) → IsFeedless (stopped_text answer) }
{}

/// The words of an answer stand apart by one space, where its frame and the values of each item aren't empty.
pub fn words_stand_apart()
    ensures asked { (answer : Result LeaseAnswer AskRefusal) → IsSpaced (asked_text answer) }
    ensures polled { (answer : Result LeaseState LeaseRefusal) → IsSpaced (polled_text answer) }
    ensures released { (answer : Result (Unit {0}) LeaseRefusal) → IsSpaced (released_text answer) }
    ensures submitted { (answer : Result Accepted SubmitRefusal) → IsSpaced (submitted_text answer) }
    ensures sent { (answer : Result Sending SendRefusal)
        → IfOk answer (λ sending. sending.frame ≢ []) → IsSpaced (sent_text answer) }
    ensures received { (answer : Result FrameAnswer FrameRefusal) → IsSpaced (received_text answer) }
    ensures cancelled { (answer : Result (Unit {0}) CancelRefusal) → IsSpaced (cancelled_text answer) }
    ensures collected { (answer : Result Outcome TakeRefusal)
        → IfOk answer (λ outcome. AllByRecursion (λ values. values ≢ []) outcome.values)
        → IsSpaced (collected_text answer) }
    ensures ticked { (ticked : Ticked) → IsSpaced (ticked_text ticked) }
    ensures stopped { (answer : Result (Unit {0}) Reason) → IsSpaced (stopped_text answer) }
{}
