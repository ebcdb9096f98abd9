//! Laws of URIs.
ghost use Rattle.std.specs.Prelude.{◌≡◌, ◌↔◌, ◌≤◌, Ok, length};
ghost use Rattle.sipl_names.specs.Labels.{Octets};
ghost use Rattle.sipl_uri.specs.declared.question.Question.{Question};
ghost use Rattle.sipl_uri.specs.Uris.{question_of};
ghost use Rattle.sipl_uri.specs.Grammar.{IsUri};
ghost use Rattle.sipl_uri.specs.declared.question.TheConstants.{MAX_QUESTION_TEXT_LEN};
ghost use Rattle.sipl_uri.specs.QuestionText.{IsAskable, question_text};

/// A text asks a question exactly where the grammar relates them (RFC 3261, 25.1).
pub fn questions_match_the_grammar()
    ensures { (text : Octets) (question : Question) →
        (question_of text ≡ Ok question) ↔ IsUri text question }
{}

/// Each question that a text asks has an address or the name of a hostname as its target, a port
/// from 1 to 65,535, if it has one, and with `sips` no transport other than TLS (RFC 3261, 19.1.1
/// and 26.2.2).
pub fn questions_are_askable()
    ensures { (text : Octets) (question : Question) →
        question_of text ≡ Ok question → IsAskable question }
{}

/// The URI of such a question asks that question (RFC 3261, 19.1.1).
pub fn printed_questions_read_back()
    ensures { (question : Question) → IsAskable question
        → question_of (question_text question) ≡ Ok question }
{}

/// The URI of such a question has at most `MAX_QUESTION_TEXT_LEN` octets, which are 1,030: 5 for the scheme
/// and its colon, 1,004 for the name, 6 for the port with its colon and 15 for the transport parameter.
pub fn question_text_has_at_most_1030_octets()
    ensures most { (question : Question) → IsAskable question
        → length (question_text question) ≤ 1030 }
    ensures constant { MAX_QUESTION_TEXT_LEN ≡ 1030 }
{}
