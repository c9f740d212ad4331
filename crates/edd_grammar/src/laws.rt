//! Laws of the readers, for the crates above.

ghost use Rattle.std.specs.Prelude.{◌≡◌, ℕ, ◌≤◌, true, false, IsTrue, List, ◌∷◌, suc, Some};
ghost use Rattle.edd_syntax.specs.declared.symbols.Symbol.TheVariants as sign;
ghost use Rattle.edd_syntax.specs.Text.{Text};
ghost use Rattle.edd_syntax.specs.Token.{Token, Sign};
ghost use Rattle.edd_syntax.specs.Statement.{Declarator, Stmt, Body};
ghost use Rattle.edd_grammar.specs.DeclarationReading.{declarators_at};
ghost use Rattle.edd_grammar.specs.StatementReading.{statement_at, definition_at};
ghost use Rattle.edd_grammar.specs.UnitReading.{item_at, unit_at};
ghost use Rattle.edd_grammar.specs.KeptTokens.{Kept};
ghost use Rattle.edd_syntax.specs.WellFormed.{is_path, is_plain, is_item, are_items};
ghost use Rattle.edd_syntax.specs.Item.{Item, Description};
ghost use Rattle.edd_syntax.specs.ItemGrammar.{Spells};
ghost use Rattle.edd_syntax.specs.Reference.{Path};
ghost use Rattle.edd_syntax.specs.Expression.{Expr};
ghost use Rattle.edd_syntax.specs.Grammar.{Site, InAttribute, PathHere, TextHere, ExprHere};
ghost use Rattle.edd_syntax.specs.Size.{height_limit, height, leaf, cond_height, conds_height, declarator_height, statement_height, body_height};
ghost use Rattle.edd_syntax.specs.Conditional.{Cond, Conds};
ghost use Rattle.edd_syntax.specs.StatementGrammar.{OneHere, ListHere, DeclaratorsHere, StmtHere, BodyHere};
ghost use Rattle.edd_grammar.specs.ConditionalReading.{one_at, list_at, text_value, expr_value};
ghost use Rattle.edd_grammar.specs.Reading.{at, path_at, is_text, text_at};
ghost use Rattle.edd_grammar.specs.ExpressionReading.{expr_at};
ghost use Rattle.edd_grammar.specs.Following.{Stops, EndsBranch};

/// A path that is read is spelled by the tokens that were taken.
pub fn read_paths_are_spelled()
    ensures { (here : List Token) (path : Path) (rest : List Token)
        → path_at here ≡ Some (path, rest) → PathHere path here rest }
{}

/// A path that is spelled is read, where no further member follows.
pub fn spelled_paths_are_read()
    ensures { (path : Path) (here rest : List Token) → at sign.Dot rest ≡ false
        → PathHere path here rest → path_at here ≡ Some (path, rest) }
{}

/// A text that is read is spelled by the tokens that were taken.
pub fn read_texts_are_spelled()
    ensures { (here : List Token) (text : Text) (rest : List Token) → is_text here ≡ true
        → text_at here ≡ Some (text, rest) → TextHere text here rest }
{}

/// A text that is spelled is read.
pub fn spelled_texts_are_read()
    ensures { (text : Text) (here rest : List Token) → TextHere text here rest
        → (is_text here ≡ true) × (text_at here ≡ Some (text, rest)) }
{}

/// An expression that is read at a site for a precedence is spelled there by the tokens that were
/// taken, and is no higher than the limit it was read with.
pub fn read_expressions_are_spelled()
    ensures { (p : Site) (height_left precedence : ℕ) (here : List Token) (e : Expr Path)
        (rest : List Token)
        → precedence ≤ 13 → expr_at p height_left precedence here ≡ Some (e, rest)
        → ExprHere p precedence e here rest × (height e ≤ height_left) }
{}

/// An expression that is spelled at a site for a precedence, no higher than the limit, is read,
/// where what follows can't go on with it.
pub fn spelled_expressions_are_read()
    ensures { (p : Site) (height_left precedence : ℕ) (e : Expr Path) (here rest : List Token)
        → precedence ≤ 13 → ExprHere p precedence e here rest → height e ≤ height_left
        → Stops precedence rest → expr_at p height_left precedence here ≡ Some (e, rest) }
{}

/// From one place on, tokens spell one expression at most, and it ends in one place, where what
/// follows can't go on with it.
pub fn one_expression()
    ensures { (p : Site) (precedence : ℕ) (e f : Expr Path) (here rest behind : List Token)
        → precedence ≤ 13 → Stops precedence rest → Stops precedence behind
        → ExprHere p precedence e here rest → ExprHere p precedence f here behind
        → (e ≡ f) × (rest ≡ behind) }
{}

/// A single conditional text that is read is spelled by the tokens that were taken, and is no
/// higher than the limit it was read with.
pub fn read_conditional_texts_are_spelled()
    ensures { (height_left : ℕ) (here : List Token) (x : Cond Path Text) (rest : List Token)
        → one_at text_value height_left here ≡ Some (x, rest)
        → OneHere TextHere x here rest × (cond_height leaf x ≤ height_left) }
{}

/// A single conditional text that is spelled, no higher than the limit, is read.
pub fn spelled_conditional_texts_are_read()
    ensures { (height_left : ℕ) (x : Cond Path Text) (here rest : List Token)
        → OneHere TextHere x here rest → cond_height leaf x ≤ height_left
        → one_at text_value height_left here ≡ Some (x, rest) }
{}

/// From one place on, tokens spell one conditional text at most, and it ends in one place.
pub fn one_conditional_of_texts()
    ensures { (x y : Cond Path Text) (here rest behind : List Token) → OneHere TextHere x here rest
        → OneHere TextHere y here behind → (x ≡ y) × (rest ≡ behind) }
{}

/// A single conditional expression that is read is spelled by the tokens that were taken, and is no
/// higher than the limit it was read with.
pub fn read_conditional_values_are_spelled()
    ensures { (height_left : ℕ) (here : List Token) (x : Cond Path (Expr Path)) (rest : List Token)
        → one_at expr_value height_left here ≡ Some (x, rest)
        → OneHere (ExprHere InAttribute 2) x here rest × (cond_height height x ≤ height_left) }
{}

/// A single conditional expression that is spelled, no higher than the limit, is read.
pub fn spelled_conditional_values_are_read()
    ensures { (height_left : ℕ) (x : Cond Path (Expr Path)) (here rest : List Token)
        → OneHere (ExprHere InAttribute 2) x here rest → cond_height height x ≤ height_left
        → one_at expr_value height_left here ≡ Some (x, rest) }
{}

/// From one place on, tokens spell one conditional expression at most, and it ends in one place.
pub fn one_conditional_of_values()
    ensures { (x y : Cond Path (Expr Path)) (here rest behind : List Token)
        → OneHere (ExprHere InAttribute 2) x here rest
        → OneHere (ExprHere InAttribute 2) y here behind → (x ≡ y) × (rest ≡ behind) }
{}

/// A list of conditional texts that is read is spelled by the tokens that were taken, and is no
/// higher than the limit it was read with.
pub fn read_lists_are_spelled()
    ensures { (height_left : ℕ) (here : List Token) (all : Conds Path Text) (rest : List Token)
        → list_at text_value height_left here ≡ Some (all, rest)
        → ListHere TextHere all here rest × (conds_height leaf all ≤ height_left) }
{}

/// A list of conditional texts that is spelled, no higher than the limit, is read, where a closing
/// brace or the next arm follows.
pub fn spelled_lists_are_read()
    ensures { (height_left : ℕ) (all : Conds Path Text) (here rest : List Token)
        → ListHere TextHere all here rest → conds_height leaf all ≤ height_left → EndsBranch rest
        → list_at text_value height_left here ≡ Some (all, rest) }
{}

/// From one place on, tokens spell one list of conditional texts at most, where a closing brace or
/// the next arm follows.
pub fn one_list()
    ensures { (all others : Conds Path Text) (here rest behind : List Token)
        → ListHere TextHere all here rest → ListHere TextHere others here behind
        → EndsBranch rest → EndsBranch behind → (all ≡ others) × (rest ≡ behind) }
{}

/// Declarators that are read are spelled by the tokens that were taken, and their values are no
/// higher than the limit they were read with.
pub fn read_declarators_are_spelled()
    ensures { (height_left : ℕ) (here : List Token) (ds : List (Declarator Path))
        (rest : List Token)
        → declarators_at height_left here ≡ Some (ds, rest)
        → DeclaratorsHere ds here rest × (declarator_height ds ≤ suc height_left) }
{}

/// Declarators that are spelled, whose values are no higher than the limit, are read, where a
/// semicolon follows.
pub fn spelled_declarators_are_read()
    ensures { (height_left : ℕ) (ds : List (Declarator Path)) (here rest : List Token)
        → DeclaratorsHere ds here (Sign sign.Semicolon ∷ rest)
        → declarator_height ds ≤ suc height_left
        → declarators_at height_left here ≡ Some (ds, Sign sign.Semicolon ∷ rest) }
{}

/// A statement that is read is spelled by the tokens that were taken, and is no higher than the
/// limit it was read with.
pub fn read_statements_are_spelled()
    ensures { (height_left : ℕ) (here : List Token) (s : Stmt Path) (rest : List Token)
        → statement_at height_left here ≡ Some (s, rest)
        → StmtHere s here rest × (statement_height s ≤ height_left) }
{}

/// A statement that is spelled, no higher than the limit, is read, whatever follows.
pub fn spelled_statements_are_read()
    ensures { (height_left : ℕ) (s : Stmt Path) (here rest : List Token)
        → StmtHere s here rest → statement_height s ≤ height_left
        → statement_at height_left here ≡ Some (s, rest) }
{}

/// From one place on, tokens spell one statement at most, and it ends in one place.
pub fn one_statement()
    ensures { (s t : Stmt Path) (here rest behind : List Token) → StmtHere s here rest
        → StmtHere t here behind → (s ≡ t) × (rest ≡ behind) }
{}

/// A body that is read is spelled by the tokens up to its closing brace, and is no higher than the
/// limit it was read with.
pub fn read_bodies_are_spelled()
    ensures { (height_left : ℕ) (here : List Token) (body : Body Path) (rest : List Token)
        → definition_at height_left here ≡ Some (body, rest)
        → BodyHere false body here (Sign sign.CloseBrace ∷ rest)
        × (body_height body ≤ height_left) }
{}

/// A body that is spelled up to a closing brace, no higher than the limit, is read.
pub fn spelled_bodies_are_read()
    ensures { (height_left : ℕ) (body : Body Path) (here rest : List Token)
        → BodyHere false body here (Sign sign.CloseBrace ∷ rest) → body_height body ≤ height_left
        → definition_at height_left here ≡ Some (body, rest) }
{}

/// From one place on, tokens spell one body up to its closing brace at most.
pub fn one_body()
    ensures { (a b : Body Path) (here rest behind : List Token)
        → BodyHere false a here (Sign sign.CloseBrace ∷ rest)
        → BodyHere false b here (Sign sign.CloseBrace ∷ behind) → (a ≡ b) × (rest ≡ behind) }
{}

/// The unit that is read is spelled by the tokens.
pub fn read_units_are_spelled()
    ensures { (tokens : List Token) (unit : Description Path) → unit_at tokens ≡ Some unit
        → Spells tokens unit }
{}

/// The unit that the tokens spell is read.
pub fn spelled_units_are_read()
    ensures { (tokens : List Token) (unit : Description Path) → Spells tokens unit
        → unit_at tokens ≡ Some unit }
{}

/// Tokens spell one unit at most.
pub fn one_tree()
    ensures { (tokens : List Token) (a b : Description Path) → Spells tokens a → Spells tokens b
        → a ≡ b }
{}

/// An item that is read from kept tokens is one as the parser makes it, and the tokens after it
/// are kept.
pub fn read_items_are_kept()
    ensures { (here : List Token) (i : Item Path) (rest : List Token)
        → item_at height_limit here ≡ Some (i, rest) → Kept here
        → IsTrue (is_item is_path is_plain i) × Kept rest }
{}

/// The items of a unit that kept tokens spell are items as the parser makes them.
pub fn spelled_units_are_kept()
    ensures { (tokens : List Token) (unit : Description Path) → Spells tokens unit → Kept tokens
        → IsTrue (are_items unit.items) }
{}
