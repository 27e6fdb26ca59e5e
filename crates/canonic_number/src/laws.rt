//! Laws of canonic numbers and numeric literals, stated in `specs/Statements.antt`. Calling them does nothing.
ghost use Rattle.canonic_number.specs.Statements.{EqualValuesAreEqualTexts, AnswersAreCanonic, AnswersKeepTheValue, EqualLiteralsHaveEqualAnswers, CanonicTextsAreLiterals, CanonicTextsStay};

/// Two canonic texts of equal value are equal, so that comparing by value never ties two texts.
pub fn equal_values_are_equal_texts()
    ensures { EqualValuesAreEqualTexts }
{}

/// `canonic_of` answers the one canonic text that has the literal's value.
pub fn canonic_of_is_right()
    ensures canonic { AnswersAreCanonic }
    ensures value { AnswersKeepTheValue }
    ensures one_answer { EqualLiteralsHaveEqualAnswers }
    ensures literal { CanonicTextsAreLiterals }
    ensures same { CanonicTextsStay }
{}
