//! Laws of the blocks of expressions, for the crates above.

ghost use Rattle.std.specs.Prelude.{◌≡◌, ℕ, suc, ◌+◌, ◌*◌, ◌≤◌, nat_lt, Bool, true, ℤ, List};
ghost use Rattle.edd_syntax.specs.declared.reference.Target.{Target};
ghost use Rattle.edd_syntax.specs.Expression.{Expr};
ghost use Rattle.edd_syntax.specs.Device as device;
ghost use Rattle.edd_syntax.specs.AttributeValue.{value};
ghost use Rattle.edd_syntax.specs.Size.{nodes, height};
ghost use Rattle.edd_syntax.specs.WellFormed.{is_pure_expr};
ghost use Rattle.edd_image.specs.declared.parts.Counts.{Counts};
ghost use Rattle.edd_instructions.specs.declared.unit.Sort.TheVariants.{Attribute};
ghost use Rattle.edd_image.specs.declared.versions.Version.{Version};
ghost use Rattle.edd_image.specs.declared.versions.Version.TheVariants.{Two};
ghost use Rattle.edd_instructions.specs.Steps.{Environment};
ghost use Rattle.edd_code.specs.Blocks.{size};
ghost use Rattle.edd_code.specs.Expressions.{expression_block};
ghost use Rattle.edd_code.specs.ExpressionMeaning.{of_value};
ghost use Rattle.edd_code.specs.Flow.{AreSpelled, Flows, all_straight, depth_after, may_stand};
ghost use Rattle.edd_code.specs.Outcomes.{does};
ghost use Rattle.edd_code.specs.Reads.{reads_existing};

/// The block of an expression leaves the expression's value on top of the operands, or results in
/// its trap.
pub fn expressions_mean_their_values()
    ensures { (image_env : Environment) (env : device.Environment) (d : List ℤ) (e : Expr Target)
        (operands : List ℤ) → image_env.elements ≡ env.elements
        → does image_env d (expression_block e) operands ≡ of_value (value env d e) operands }
{}

/// The block of an expression needs no more operands at once than the expression is high, and
/// leaves one.
pub fn expressions_flow()
    ensures flows { (e : Expr Target) (d : ℕ) → d + height e ≤ 128 → Flows (expression_block e) d }
    ensures leaves { (e : Expr Target) (d : ℕ) → d + height e ≤ 128
        → depth_after (expression_block e) d ≡ suc d }
{}

/// The block of an expression has at most 32 bytes for each of its nodes.
pub fn expressions_are_short()
    ensures { (e : Expr Target) → size (expression_block e) ≤ 32 * nodes e }
{}

/// The block of an expression of an attribute has its operands in their ranges, and its
/// instructions may be there: the variables and arrays that they name exist.
pub fn expressions_are_spelled()
    ensures spelled { (counts : Counts) (plain : Target → Bool) (e : Expr Target)
        → counts.variables ≤ 65536 → counts.arrays ≤ 65536
        → is_pure_expr (reads_existing counts) plain e ≡ true → AreSpelled (expression_block e) }
    ensures stands { (version : Version) (counts : Counts) (plain : Target → Bool) (e : Expr Target)
        → (nat_lt 0 counts.arrays ≡ true → version ≡ Two)
        → is_pure_expr (reads_existing counts) plain e ≡ true
        → all_straight (may_stand (record {
          version = version;
          counts = counts;
          sort = Attribute;
          slots = 0;
        })) (expression_block e) ≡ true }
{}
