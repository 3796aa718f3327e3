// Words of HOL Light that scripts do not have, and what is written in their place.
use crate::tables::line_of;

const HABITS: &str = "\
g `goal`
prove `goal`, then `e`, and `save` at the end
top_thm `save` and a name
new_definition `def`
new_constant `newconst`
new_type `newtype`
new_axiom a hypothesis by `ASSUME`: there are no axioms but those of the logic
let `thm NAME = RULE ..`, or `def`
loads the name of the file before this one: `holp run FIRST.hol SECOND.hol`
loadt the name of the file before this one: `holp run FIRST.hol SECOND.hol`
needs the name of the file before this one: `holp run FIRST.hol SECOND.hol`
STRIP_TAC `HOST strip`
FIRST_ASSUM `ASSUMPTION_TAC`, `HOST asm_back`, or a theorem by `ASSUME`
FIRST_X_ASSUM `HOST asm_back`, or a theorem by `ASSUME` of the assumption
POP_ASSUM `UNDISCH_TAC` and the assumption, quoted, or `HOST undisch` for all
MATCH_MP_TAC `MP_TAC NAME THEN HOST back`
MATCH_ACCEPT_TAC `MP_TAC NAME THEN HOST accept`
SUBGOAL_THEN `MP_TAC NAME THEN HOST cut`, behind ``thm NAME = REFL `p` ``
ASM_CASES_TAC `MP_TAC NAME THEN HOST cases`, behind ``thm NAME = REFL `p` ``
BOOL_CASES_TAC `MP_TAC NAME THEN HOST cases`, behind ``thm NAME = REFL `p` ``
CCONTR_TAC `MP_TAC NAME THEN HOST cases`, behind ``thm NAME = REFL `p` `` of the goal `p`
X_GEN_TAC `GEN_TAC`, which takes the bound name
X_CHOOSE_TAC `CHOOSE_TAC`, which takes the bound name
BETA_TAC `CONV_TAC (HOST beta)`
ONCE_REWRITE_TAC `CONV_TAC (ONCE_DEPTH_CONV (REWR_CONV NAME))`
SUBST1_TAC `REWRITE_TAC [NAME]`
ASM_REWRITE_TAC `HOST asm_rewrite`, with a theorem `MP_TAC NAME THEN HOST rewrite`
SIMP_TAC `REWRITE_TAC`, then `CONV_TAC (HOST beta)`: no rewriting has conditions
ASM_SIMP_TAC `HOST asm_rewrite`, then `CONV_TAC (HOST beta)`: no rewriting has conditions
DISCH_THEN `DISCH_TAC`, and a theorem by `ASSUME` of what it assumed
RULE_ASSUM_TAC a theorem by a rule on what `ASSUME` makes of the assumption, then `ASSUME_TAC`
CONTR_TAC `CONTR` of the goal, quoted, then `ACCEPT_TAC`
AP_TERM_TAC `MK_COMB` of `REFL` and the equation, then `ACCEPT_TAC`
ABS_TAC `ABS` of the equation, then `ACCEPT_TAC`
ASM_MESON_TAC `HOST meson`
MESON_TAC `MP_TAC NAME THEN HOST meson`, or `HOST meson`
METIS_TAC `MP_TAC NAME THEN HOST meson`, or `HOST meson`
ARITH_TAC a proof by the theorems of `library/numbers.hol`: nothing decides arithmetic
INDUCT_TAC `CONV_TAC (REWR_CONV num_INDUCT) THEN CONV_TAC (HOST beta) THEN CONJ_TAC`, behind `library/numbers.hol`
AP_TERM `REFL` of the function, then `MK_COMB`
AP_THM `REFL` of the argument, then `MK_COMB`
MATCH_MP `SPEC`, then `MP`; in a goal `MP_TAC NAME THEN HOST back`
SPECL `SPEC`, one variable after another
GENL `GEN`, one variable after another
ISPEC `INST_TYPE`, then `SPEC`
CONJUNCTS `CONJUNCT1` and `CONJUNCT2`
SPEC_ALL `SPEC`, one variable after another; in a goal `MP_TAC NAME THEN HOST spec_all`
GEN_ALL `GEN`, one variable after another
CCONTR `SPEC` of `EXCLUDED_MIDDLE`, then `DISJ_CASES`
EQ_IMP_RULE `ASSUME` of a side, `EQ_MP`, then `DISCH`
IMP_TRANS `ASSUME`, `MP` twice, then `DISCH`
ALPHA `REFL`: what is compared is compared up to bound names
CONV_RULE `CONV` with a conversion and the conclusion, quoted, then `EQ_MP` of both
BETA_RULE `CONV` with a conversion and the conclusion, quoted, then `EQ_MP` of both
REWRITE_RULE `CONV` with a conversion and the conclusion, quoted, then `EQ_MP` of both
REWRITE_CONV `TOP_DEPTH_CONV (REWR_CONV NAME)`
REDEPTH_CONV `TOP_DEPTH_CONV`
UNWIND_CONV `HOST unwind`
LAND_CONV `RATOR_CONV (RAND_CONV ..)`
BINDER_CONV `RAND_CONV (ABS_CONV ..)`";

// Words that terms do not have, and what is said of them.
const ABSENT: &str = "\
#number , and there are no numerals: a number is a name that a script makes known, as `zero` in `library/numbers.hol`
SUC ; there are no numbers but those that a script makes known, as `suc n` in `library/numbers.hol`
if ; there is no `if`: what holds in each case is stated, as `(b ==> x = s) /\\ (~b ==> x = t)`
let ; there is no `let`: the term stands in the place of the name, or `(\\x:ty. b) t` binds it
, ; there are no pairs
; ; there are no lists
{ ; a set is a predicate, as `\\x:A. p`
+ ; a function stands before its arguments, as `add m n`
* ; a function stands before its arguments, as `mul m n`
- ; a function stands before its arguments, as `sub m n`
< ; a function stands before its arguments, as `lt m n`
> ; a function stands before its arguments, as `lt n m`";

// Words for the end of a session, or for help.
const ENDINGS: &str = "quit exit help bye";

/// Whether a word in any case asks for the end of a session, or for help.
pub(crate) fn is_ending(word: &str) -> bool {
    for known in ENDINGS.split(' ') {
        if word.eq_ignore_ascii_case(known) {
            return true;
        }
    }
    false
}

/// What is written in the place of a word of HOL Light.
pub(crate) fn written_for(word: &str) -> Option<&'static str> {
    line_of(HABITS, word)
}

/// What is said of a word that terms do not have.
pub fn absent(word: &str) -> Option<&'static str> {
    line_of(ABSENT, word)
}
