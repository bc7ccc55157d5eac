//! Conversations that are worked out by hand.

ghost use Rattle.std.specs.Prelude.{◌≡◌, [], ◌∷◌};
ghost use Rattle.mds_rule.specs.MdsTurns.{Ticks, mds_behind, turns_shown};
ghost use Rattle.mds_rule.specs.WorkedRecords.{heard, back_to, null_call, null_reply, third_procedure, no_procedure, empty_compound, empty_result, lost_session, bad_session, write_sent, write_record};
ghost use Rattle.mds_rule.specs.Conversations.{fresh_mds, opened_mds, opening, opening_shown, period, period_shown, read_through, read_through_shown, write_through, write_through_shown, held_mds, reporting, reporting_shown, lease_ending, lease_ending_shown, recalling, recalling_shown, other_holds_mds, denying, denying_shown, three_servers, placing, placing_shown, taking_turns, taking_turns_shown, writing_while_held, writing_while_held_shown, restarting, restarting_shown, returning_all, returning_all_shown, reading_past_the_lease, reading_past_the_lease_shown, misplacing, misplacing_shown, two_calls_mds, naming, naming_shown, naming_none, naming_none_shown, unanswered_mds, naming_nobody, naming_nobody_shown, numbers_kept};

/// Conversations with a metadata server that are worked out by hand: a client that opens a file; a period of writing, from
/// its grant to the end of its fence; a READ that one mirror fails; a WRITE through the metadata server; a return with a
/// report; a lease that ends, with a mirror that is silent; a recall that expires, and the copy behind its fence;
/// a layout that another client has; where the mirrors of files are.
pub fn worked_conversations()
    ensures opening { turns_shown fresh_mds opening ≡ opening_shown }
    ensures period { turns_shown opened_mds period ≡ period_shown }
    ensures read_through { turns_shown opened_mds read_through ≡ read_through_shown }
    ensures write_through { turns_shown opened_mds write_through ≡ write_through_shown }
    ensures reporting { turns_shown held_mds reporting ≡ reporting_shown }
    ensures lease_ending { turns_shown held_mds lease_ending ≡ lease_ending_shown }
    ensures recalling { turns_shown held_mds recalling ≡ recalling_shown }
    ensures denying { turns_shown other_holds_mds denying ≡ denying_shown }
    ensures placing { turns_shown three_servers placing ≡ placing_shown }
{}

/// Records that are worked out byte by byte: NULL, a procedure that there is not, a compound without operations, and one of
/// a session that there is not; a WRITE that goes out (RFC 8881, sections 16.1, 16.2 and 18.46).
pub fn worked_records()
    ensures null { heard null_call ≡ back_to null_reply }
    ensures procedure { heard third_procedure ≡ back_to no_procedure }
    ensures empty { heard empty_compound ≡ back_to empty_result }
    ensures session { heard lost_session ≡ back_to bad_session }
    ensures write { write_sent ≡ write_record }
{}

/// More of them: two clients, one after the other; a WRITE while a client holds the file; a client that restarts, one that
/// gives all back, and one whose lease ends while it waits for a READ; operations that stand where they may not, and those
/// that there are not.
pub fn more_conversations()
    ensures taking_turns { turns_shown held_mds taking_turns ≡ taking_turns_shown }
    ensures writing_while_held { turns_shown held_mds writing_while_held ≡ writing_while_held_shown }
    ensures restarting { turns_shown held_mds restarting ≡ restarting_shown }
    ensures returning_all { turns_shown held_mds returning_all ≡ returning_all_shown }
    ensures reading_past_the_lease { turns_shown opened_mds reading_past_the_lease ≡ reading_past_the_lease_shown }
    ensures misplacing { turns_shown opened_mds misplacing ≡ misplacing_shown }
{}

/// Timeouts of calls by their numbers: of two calls to one data server the second goes out again, and a number that is not
/// outstanding there does nothing, also where its call stands still. Of calls that stand, those that nobody awaits are gone
/// behind a tick.
pub fn worked_timeouts()
    ensures naming { turns_shown two_calls_mds naming ≡ naming_shown }
    ensures none { turns_shown two_calls_mds naming_none ≡ naming_none_shown }
    ensures nobody { turns_shown unanswered_mds naming_nobody ≡ naming_nobody_shown }
    ensures stands { numbers_kept unanswered_mds ≡ 3 ∷ 5 ∷ [] }
    ensures forgotten { numbers_kept (mds_behind unanswered_mds ((3, Ticks) ∷ [])) ≡ 5 ∷ [] }
{}
