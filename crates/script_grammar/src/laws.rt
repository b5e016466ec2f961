//! The laws of the reading functions: what they say and what the grammar says is the same, and a refusal is the first one.
//! Each is a call that does nothing, and whose contract is the law.

ghost use Rattle.std.specs.Prelude.{◌≡◌, ◌↔◌, ℕ, ◌<◌, ◌∷◌, ◌++◌, List, Ok, Err, Some, None, codes};
ghost use Rattle.script_grammar.specs.Limits.{max_depth};
ghost use Rattle.std.specs.List.{repeat, flat_map};
ghost use Rattle.script_grammar.specs.declared.refusal.Refusal.{Refusal};
ghost use Rattle.script_grammar.specs.declared.refusal.ReadKind.TheVariants.{BadByte, EndOfInput, MissingNoether, TooManyCommands, Expected, NotAPrime, TooManyVariables, NameClash, TooManyNames, UnknownName, ExponentTooLarge, ZeroDivisor, TooDeep, NoetherDegree, TooManyMonomials, TooManyGenerators};
ghost use Rattle.script_grammar.specs.declared.refusal.What.TheVariants as whats;
ghost use Rattle.script_grammar.specs.Tokens.{Token, bad, end, cut, Place, the_end, cut_off, next};
ghost use Rattle.script_grammar.specs.Spelling.{Spells};
ghost use Rattle.script_grammar.specs.Trees.{Sum, sum_tokens, Tree, tree_tokens};
ghost use Rattle.script_grammar.specs.Expressions.{Declarations, expression_at};
ghost use Rattle.script_grammar.specs.Script.{script_of};
ghost use Rattle.script_grammar.specs.Valid.{Stand, ValidSum, SpellsTree, IsScript};
ghost use Rattle.script_grammar.specs.Places.{found_token, IsToken, Placed, EndsSum};
ghost use Rattle.script_grammar.specs.First.{IsFirst, IsFirstOfSum};
ghost use Rattle.script_grammar.specs.Outcome.{outcome};
ghost use Rattle.script_grammar.specs.Ends.{SpellsEnd, SpellsCut, SpellsBad, found_bad, SpellsAll};

/// What the bytes spell first is the next token, and a next token that is a word, a string or a mark is spelled there.
pub fn spelling()
    ensures read { (bytes : List ℕ) (token : Token) (rest : List ℕ) → Spells bytes token rest → next bytes ≡ found_token token rest }
    ensures spelled { (bytes : List ℕ) → IsToken (next bytes).token → Spells bytes (next bytes).token (next bytes).rest }
{}

/// The same holds of the end, of a comment or a string that isn't closed, and of a byte of no token.
pub fn spelling_elsewhere()
    ensures end_read { (bytes : List ℕ) → SpellsEnd bytes → next bytes ≡ the_end }
    ensures end_spelled { (bytes : List ℕ) → (next bytes).token ≡ end → SpellsEnd bytes }
    ensures cut_read { (bytes : List ℕ) → SpellsCut bytes → next bytes ≡ cut_off }
    ensures cut_spelled { (bytes : List ℕ) → (next bytes).token ≡ cut → SpellsCut bytes }
    ensures bad_read { (bytes : List ℕ) (b : ℕ) (rest : List ℕ) → SpellsBad bytes b rest → next bytes ≡ found_bad b rest }
    ensures bad_spelled { (bytes : List ℕ) → (next bytes).token ≡ bad → (b : ℕ) × SpellsBad bytes b (next bytes).rest }
{}

/// The bytes spell a tree just where its tokens are spelled one after the other, and the end behind them.
pub fn spelled_scripts()
    ensures { (bytes : List ℕ) (t : Tree) → SpellsTree bytes t ↔ SpellsAll bytes (tree_tokens t) }
{}

/// An expression that is read stands there and is valid, and each valid one that stands there is read, if no token behind goes
/// on with it; it may stand at each place that `next` gives.
pub fn both_ways_of_expressions()
    ensures placed { (bytes : List ℕ) → Placed (next bytes) }
    ensures found { (known : Declarations) (t : Place) (x : Sum) (u : Place) → expression_at known t ≡ Ok (x, u)
        → Stand t (sum_tokens x) u × ValidSum known max_depth x }
    ensures only { (known : Declarations) (t : Place) (x : Sum) (u : Place) → Placed t → Stand t (sum_tokens x) u → ValidSum known max_depth x → EndsSum u
        → expression_at known t ≡ Ok (x, u) }
{}

/// What is read is a script of the grammar with the tree that was read, and each script of the grammar is read as its tree.
pub fn both_ways()
    ensures found { (bytes : List ℕ) (t : Tree) → script_of bytes ≡ Ok t → IsScript bytes t }
    ensures only { (bytes : List ℕ) (t : Tree) → IsScript bytes t → script_of bytes ≡ Ok t }
{}

/// No bytes are a script with two trees.
pub fn one_tree()
    ensures { (bytes : List ℕ) (t u : Tree) → IsScript bytes t → IsScript bytes u → t ≡ u }
{}

/// A refusal is the first one: the tokens before it begin the shape of a script, and no script begins with these and the refused
/// one, whatever is behind.
pub fn first_refusal()
    ensures { (bytes : List ℕ) (f : Refusal) → script_of bytes ≡ Err f → IsFirst bytes f }
{}

/// The refusal of an expression is the first one: the tokens before it begin a valid expression, and what begins with these and
/// the refused one is refused there.
pub fn first_refusal_of_expression()
    ensures { (known : Declarations) (bytes : List ℕ) (f : Refusal) → 1 < known.prime → expression_at known (next bytes) ≡ Err f → IsFirstOfSum known bytes f }
{}

/// Worked scripts: what is read, and what is refused, at which line and column and why; each kind of refusal and each token that
/// may be wanted is among them.
pub fn examples()
    ensures blanks_and_comments { outcome (codes "option(redSB); LIB \"sing.lib\"; // hi\nring x2=007 , x , ds ;/**/noether=x*x^2*x3;\nideal i=x;std(i);") ≡ None }
    ensures zero_divisor_of_characteristic_two { outcome (codes "ring r=2,(x,y),ds;\nnoether=x^5;\npoly f=1/2;\n") ≡ Some ((3, 10), ZeroDivisor) }
    ensures characteristic_that_is_no_prime { outcome (codes "ring r=32002,(x,y),ds;\n") ≡ Some ((1, 8), NotAPrime) }
    ensures variable_twice { outcome (codes "ring r=5,(x,x)") ≡ Some ((1, 13), NameClash) }
    ensures ninth_variable { outcome (codes "ring r=5,(a,b,c,d,e,f,g,h,i)") ≡ Some ((1, 27), TooManyVariables) }
    ensures ideal_before_noether { outcome (codes "ring r=32003,(x,y),ds;\nideal i=x;") ≡ Some ((2, 1), MissingNoether) }
    ensures noether_degree_above_255 { outcome (codes "ring r=32003,(x,y),ds;\nnoether=x200y200;") ≡ Some ((2, 9), NoetherDegree) }
    ensures too_many_monomials { outcome (codes "ring r=32003,(x,y),ds;\nnoether=x^90;") ≡ Some ((2, 9), TooManyMonomials 4186) }
    ensures name_like_a_monomial { outcome (codes "ring r=32003,(x,y),ds;\nnoether=x^5;\npoly xy=x;") ≡ Some ((3, 6), NameClash) }
    ensures exponent_behind_two_factors { outcome (codes "ring r=32003,(x,y),ds;\nnoether=x^5;\npoly f=2x^3;") ≡ Some ((3, 10), Expected whats.Operator) }
    ensures unknown_letter_before_a_large_exponent { outcome (codes "ring r=32003,(x,y),ds;\nnoether=x^5;\npoly f=x1001w;") ≡ Some ((3, 8), UnknownName) }
    ensures large_exponent { outcome (codes "ring r=32003,(x,y),ds;\nnoether=x^5;\npoly f=5x1001;") ≡ Some ((3, 8), ExponentTooLarge) }
    ensures command_on_ideals_of_a_polynomial { outcome (codes "ring r=32003,(x,y),ds;\nnoether=x^5;\npoly f=x;vdim(f);") ≡ Some ((3, 15), UnknownName) }
    ensures parentheses_32 { outcome (codes "ring r=32003,(x,y),ds;\nnoether=x^5;\npoly f=" ++ (repeat 32 (codes "(") ++ (codes "x" ++ (repeat 32 (codes ")") ++ codes ";milnor(f);")))) ≡ None }
    ensures parenthesis_33 { outcome (codes "ring r=32003,(x,y),ds;\nnoether=x^5;\npoly f=" ++ (repeat 33 (codes "(") ++ codes "x")) ≡ Some ((3, 40), TooDeep) }
    ensures generator_65 { outcome (codes "ring r=32003,(x,y),ds;\nnoether=x^5;\npoly f=x;ideal i=" ++ (repeat 64 (codes "x,") ++ codes "x")) ≡ Some ((3, 146), TooManyGenerators) }
    ensures derivatives_above_64 { outcome (codes "ring r=32003,(x,y),ds;\nnoether=x^5;\npoly f=x;ideal i=" ++ (repeat 63 (codes "x,") ++ codes "jacob(f);std(i);")) ≡ Some ((3, 144), TooManyGenerators) }
    ensures commands_64 { outcome (codes "ring r=32003,(x,y),ds;\nnoether=x^5;\nideal i=x;" ++ repeat 64 (codes "std(i);")) ≡ None }
    ensures command_65 { outcome (codes "ring r=32003,(x,y),ds;\nnoether=x^5;\nideal i=x;" ++ repeat 65 (codes "std(i);")) ≡ Some ((3, 459), TooManyCommands) }
    ensures byte_of_no_token { outcome (codes "ring r=32003,(x,y),ds;\nnoether=x^5;\npoly f=_;") ≡ Some ((3, 8), BadByte) }
    ensures string_that_is_not_closed { outcome (codes "ring r=32003,(x,y),ds;\nnoether=x^5;\npoly f=\"a") ≡ Some ((3, 10), EndOfInput) }
    ensures comment_in_place_of_a_numeral { outcome (codes "ring r=32003,(x,y),ds;\nnoether=x^5;\npoly f=1//2;") ≡ Some ((3, 13), EndOfInput) }
    ensures no_ring { outcome (codes "option(redSB); poly f=x;") ≡ Some ((1, 16), Expected whats.Ring) }
    ensures no_noether { outcome (codes "ring r=5,x,ds;\n7") ≡ Some ((2, 1), Expected whats.Noether) }
    ensures no_statement { outcome (codes "ring r=32003,(x,y),ds;\nnoether=x^5;\nring") ≡ Some ((3, 1), Expected whats.Statement) }
    ensures no_name { outcome (codes "ring r=32003,(x,y),ds;\nnoether=x^5;\npoly 7=x;") ≡ Some ((3, 6), Expected whats.Name) }
    ensures no_equals { outcome (codes "ring r=32003,(x,y),ds;\nnoether=x^5;\npoly f,x;") ≡ Some ((3, 7), Expected whats.Equals) }
    ensures no_open { outcome (codes "ring r=32003,(x,y),ds;\nnoether=x^5;\nideal i=x;std i;") ≡ Some ((3, 15), Expected whats.Open) }
    ensures no_close { outcome (codes "ring r=32003,(x,y),ds;\nnoether=x^5;\nideal i=x;std(i;") ≡ Some ((3, 16), Expected whats.Close) }
    ensures no_semicolon { outcome (codes "ring r=32003,(x,y),ds;\nnoether=x^5;\nideal i=x;std(i),") ≡ Some ((3, 17), Expected whats.Semicolon) }
    ensures no_comma { outcome (codes "ring r=5;") ≡ Some ((1, 9), Expected whats.Comma) }
    ensures no_numeral { outcome (codes "ring r=p") ≡ Some ((1, 8), Expected whats.Numeral) }
    ensures no_variable { outcome (codes "ring r=5,7") ≡ Some ((1, 10), Expected whats.Variable) }
    ensures no_order { outcome (codes "ring r=5,x,Ds;") ≡ Some ((1, 12), Expected whats.Order) }
    ensures no_redsb { outcome (codes "option(redsb);") ≡ Some ((1, 8), Expected whats.RedSb) }
    ensures no_library { outcome (codes "LIB \"sing\";") ≡ Some ((1, 5), Expected whats.Library) }
    ensures no_monomial { outcome (codes "ring r=5,x,ds;\nnoether=2x;") ≡ Some ((2, 9), Expected whats.Monomial) }
    ensures no_operand { outcome (codes "ring r=32003,(x,y),ds;\nnoether=x^5;\npoly f=;") ≡ Some ((3, 8), Expected whats.Operand) }
    ensures no_argument { outcome (codes "ring r=32003,(x,y),ds;\nnoether=x^5;\nideal i=x;std(2);") ≡ Some ((3, 15), Expected whats.Argument) }
    ensures name_65 { outcome (codes "ring r=32003,(x,y),ds;\nnoether=x^5;\n" ++ (flat_map (λ a. flat_map (λ b. codes "poly p" ++ (a ∷ b ∷ codes "=0;")) (codes "01234567")) (codes "01234567") ++ codes "poly q=0;")) ≡ Some ((3, 710), TooManyNames) }
    ensures name_65_that_is_taken { outcome (codes "ring r=32003,(x,y),ds;\nnoether=x^5;\n" ++ (flat_map (λ a. flat_map (λ b. codes "poly p" ++ (a ∷ b ∷ codes "=0;")) (codes "01234567")) (codes "01234567") ++ codes "poly p00=0;")) ≡ Some ((3, 710), NameClash) }
{}
