// The modules of the examples, without their comments. This file is written by `examples/check.py --write`.

/// The files, by name.
pub const FILES: [(&str, &str); 18] = [
    (
        "checker.mod",
        "module checker.
checks (imp_i A P) (A imp B) :- pi x\\ checks x A => checks (P x) B.
checks (imp_e P Q) B :- checks P (A imp B), checks Q A.
checks (conj_i P Q) (A conj B) :- checks P A, checks Q B.
checks (conj_l P) A :- checks P (A conj B).
checks (conj_r P) B :- checks P (A conj B).
checks (all_i P) (all A) :- pi x\\ checks (P x) (A x).
checks (all_e T P) (A T) :- checks P (all A).
checks (some_i T A P) (some A) :- checks P (A T).
checks (some_e P Q) B :- checks P (some A), (pi x\\ pi p\\ checks p (A x) => checks (Q x p) B).
checks (less_succ X) (X less succ X).
checks (less_trans P Q) (X less Z) :- checks P (X less Y), checks Q (Y less Z).
theorem \"two\" (zero less succ (succ zero)) (less_trans (less_succ zero) (less_succ (succ zero))).
theorem \"swap\" (all x\\ all y\\ x less y conj y equal x imp y equal x conj x less y)
  (all_i x\\ all_i y\\ imp_i (x less y conj y equal x) p\\ conj_i (conj_r p) (conj_l p)).
theorem \"above\" (all x\\ some y\\ x less y) (all_i x\\ some_i (succ x) (y\\ x less y) (less_succ x)).
holds N :- theorem N A P, checks P A.
",
    ),
    (
        "checker.sig",
        "sig checker.
kind thing, formula, proof type.
type zero              thing.
type succ              thing -> thing.
type equal, less       thing -> thing -> formula.
type imp, conj         formula -> formula -> formula.
type all, some         (thing -> formula) -> formula.
infix  equal 150.
infix  less  150.
infixr conj  144.
infixr imp   143.
type imp_i    formula -> (proof -> proof) -> proof.
type imp_e    proof -> proof -> proof.
type conj_i   proof -> proof -> proof.
type conj_l, conj_r  proof -> proof.
type all_i    (thing -> proof) -> proof.
type all_e    thing -> proof -> proof.
type some_i   thing -> (thing -> formula) -> proof -> proof.
type some_e   proof -> (thing -> proof -> proof) -> proof.
type less_succ  thing -> proof.
type less_trans proof -> proof -> proof.
type checks   proof -> formula -> o.
type theorem  string -> formula -> proof -> o.
type holds    string -> o.
",
    ),
    (
        "compiler.mod",
        "module compiler.
type codes  expr -> int -> list code -> list code -> o.
type at     expr -> int -> o.
compile E C :- codes E 0 C nil.
codes (num I) N (push I :: K) K.
codes (A plus B) N C K :- codes A N C D, codes B N D (add :: K).
codes (A minus B) N C K :- codes A N C D, codes B N D (sub :: K).
codes (A times B) N C K :- codes A N C D, codes B N D (mul :: K).
codes (let A B) N C K :-
  M is N + 1, codes A N C (store :: D), (pi x\\ at x N => codes (B x) M D (drop :: K)).
codes X N (load I :: K) K :- at X M, I is N - M - 1.
type steps  list code -> list int -> list int -> int -> o.
type nth    int -> list int -> int -> o.
runs C V :- steps C nil nil V.
steps nil (V :: nil) nil V.
steps (push I :: C) S E V :- steps C (I :: S) E V.
steps (add :: C) (J :: I :: S) E V :- K is I + J, steps C (K :: S) E V.
steps (sub :: C) (J :: I :: S) E V :- K is I - J, steps C (K :: S) E V.
steps (mul :: C) (J :: I :: S) E V :- K is I * J, steps C (K :: S) E V.
steps (store :: C) (I :: S) E V :- steps C S (I :: E) V.
steps (load N :: C) S E V :- nth N E I, steps C (I :: S) E V.
steps (drop :: C) S (I :: E) V :- steps C S E V.
nth 0 (I :: E) I.
nth N (J :: E) I :- 0 < N, M is N - 1, nth M E I.
value (num I) I.
value (A plus B) K :- value A I, value B J, K is I + J.
value (A minus B) K :- value A I, value B J, K is I - J.
value (A times B) K :- value A I, value B J, K is I * J.
value (let A B) K :- value A I, value (B (num I)) K.
",
    ),
    (
        "compiler.sig",
        "sig compiler.
kind expr, code type.
type num        int -> expr.
type plus, times, minus  expr -> expr -> expr.
type let        expr -> (expr -> expr) -> expr.
infixl plus  150.
infixl minus 150.
infixl times 160.
type push           int -> code.
type add, mul, sub  code.
type load           int -> code.
type store, drop    code.
type compile    expr -> list code -> o.
type runs       list code -> int -> o.
type value      expr -> int -> o.
",
    ),
    (
        "fam.mod",
        "module fam.
par ann bob.
par bob cal.
anc X Y :- par X Y.
anc X Y :- par X Z, anc Z Y.
any X.
",
    ),
    (
        "fam.sig",
        "sig fam.
kind p type.
type ann, bob, cal p.
type par, anc p -> p -> o.
type any p -> o.
",
    ),
    (
        "lists.mod",
        "module lists.
append nil L L.
append (X :: L) K (X :: M) :- append L K M.
type onto list A -> list A -> list A -> o.
reverse L K :- onto L nil K.
onto nil K K.
onto (X :: L) A K :- onto L (X :: A) K.
member X (X :: L).
member X (Y :: L) :- member X L.
map R nil nil.
map R (X :: L) (Y :: M) :- R X Y, map R L M.
each F nil nil.
each F (X :: L) (F X :: M) :- each F L M.
fold F Z nil Z.
fold F Z (X :: L) (F X Y) :- fold F Z L Y.
type insert int -> list int -> list int -> o.
sorted nil nil.
sorted (X :: L) M :- sorted L K, insert X K M.
insert X nil (X :: nil).
insert X (Y :: L) (X :: Y :: L) :- X =< Y, !.
insert X (Y :: L) (Y :: M) :- insert X L M.
",
    ),
    (
        "lists.sig",
        "sig lists.
type append    list A -> list A -> list A -> o.
type reverse   list A -> list A -> o.
type member    A -> list A -> o.
type map       (A -> B -> o) -> list A -> list B -> o.
type each      (A -> B) -> list A -> list B -> o.
type fold      (A -> B -> B) -> B -> list A -> B -> o.
type sorted    list int -> list int -> o.
",
    ),
    (
        "miniml.mod",
        "module miniml.
of (int N) num.
of (plus M N) num :- of M num, of N num.
of (fn M) (A arr B) :- pi x\\ of x A => of (M x) B.
of (app M N) B :- of M (A arr B), of N A.
of (let M N) B :- of M A, of (N M) B.
of (fix M) A :- pi x\\ of x A => of (M x) A.
of (pair M N) (A prod B) :- of M A, of N B.
of (zero L M N) A :- of L num, of M A, of N A.
eval (int N) (int K) :- K is N.
eval (plus M N) (int K) :- eval M (int I), eval N (int J), K is I + J.
eval (fn M) (fn M).
eval (app M N) V :- eval M (fn R), eval N U, eval (R U) V.
eval (let M N) V :- eval M U, eval (N U) V.
eval (fix M) V :- eval (M (fix M)) V.
eval (pair M N) (pair U V) :- eval M U, eval N V.
eval (zero L M N) V :- eval L (int K), branch K M N P, eval P V.
type branch int -> tm -> tm -> tm -> o.
branch 0 M N M :- !.
branch K M N N.
",
    ),
    (
        "miniml.sig",
        "sig miniml.
kind tm, ty type.
type int      int -> tm.
type plus     tm -> tm -> tm.
type fn       (tm -> tm) -> tm.
type app      tm -> tm -> tm.
type let      tm -> (tm -> tm) -> tm.
type fix      (tm -> tm) -> tm.
type pair     tm -> tm -> tm.
type zero     tm -> tm -> tm -> tm.
type num      ty.
type arr      ty -> ty -> ty.
type prod     ty -> ty -> ty.
infixr arr  145.
infixr prod 146.
type of       tm -> ty -> o.
type eval     tm -> tm -> o.
",
    ),
    (
        "natural.mod",
        "module natural.
shows (pair P Q) (A conj B) :- shows P A, shows Q B.
shows (first P) A :- shows P (A conj B).
shows (second P) B :- shows P (A conj B).
shows (left P) (A disj B) :- shows P A.
shows (right P) (A disj B) :- shows P B.
shows (cases P Q R) C :- shows P (A disj B), (pi x\\ shows x A => shows (Q x) C), (pi x\\ shows x B => shows (R x) C).
shows (lambda P) (A imp B) :- pi x\\ shows x A => shows (P x) B.
shows (apply P Q) B :- shows P (A imp B), shows Q A.
shows (explode P) A :- shows P falsum.
type follows   list prop -> prop -> o.
type reduce    list prop -> list prop -> prop -> o.
type choose    list prop -> prop -> o.
type atomic    prop -> o.
type pick      prop -> list prop -> list prop -> o.
provable A :- follows nil A, !.
atomic p.
atomic q.
atomic r.
follows L (A imp B) :- !, follows (A :: L) B.
follows L (A conj B) :- !, follows L A, follows L B.
follows L A :- reduce L nil A.
reduce (falsum :: L) K A :- !.
reduce ((A conj B) :: L) K C :- !, reduce (A :: B :: L) K C.
reduce ((A disj B) :: L) K C :- !, reduce (A :: L) K C, reduce (B :: L) K C.
reduce ((falsum imp B) :: L) K C :- !, reduce L K C.
reduce (((A conj B) imp D) :: L) K C :- !, reduce ((A imp B imp D) :: L) K C.
reduce (((A disj B) imp D) :: L) K C :- !, reduce ((A imp D) :: (B imp D) :: L) K C.
reduce (A :: L) K C :- reduce L (A :: K) C.
reduce nil K C :- choose K C.
choose K A :- pick A K M.
choose K C :- pick (A imp B) K M, atomic A, pick A M N, !, reduce (B :: nil) M C.
choose K (A disj B) :- follows K A.
choose K (A disj B) :- follows K B.
choose K C :- pick ((A imp B) imp D) K M, follows ((B imp D) :: M) (A imp B), reduce (D :: nil) M C.
pick A (A :: L) L.
pick A (B :: L) (B :: M) :- pick A L M.
",
    ),
    (
        "natural.sig",
        "sig natural.
kind prop type.
kind proof type.
type falsum       prop.
type p, q, r      prop.
type imp, conj, disj  prop -> prop -> prop.
infixr imp  141.
infixr disj 142.
infixr conj 143.
type pair             proof -> proof -> proof.
type first, second    proof -> proof.
type left, right      proof -> proof.
type cases            proof -> (proof -> proof) -> (proof -> proof) -> proof.
type lambda           (proof -> proof) -> proof.
type apply            proof -> proof -> proof.
type explode          proof -> proof.
type shows     proof -> prop -> o.
type provable  prop -> o.
",
    ),
    (
        "prenex.mod",
        "module prenex.
type plain  formula -> o.
type merge  formula -> formula -> o.
plain (path X Y).
plain (adjacent X Y).
plain (A conj B) :- plain A, plain B.
plain (A disj B) :- plain A, plain B.
plain (A imp B) :- plain A, plain B.
prenex (path X Y) (path X Y).
prenex (adjacent X Y) (adjacent X Y).
prenex (A conj B) D :- prenex A U, prenex B V, merge (U conj V) D.
prenex (A disj B) D :- prenex A U, prenex B V, merge (U disj V) D.
prenex (A imp B) D :- prenex A U, prenex B V, merge (U imp V) D.
prenex (all A) (all D) :- pi x\\ prenex (A x) (D x).
prenex (some A) (some D) :- pi x\\ prenex (A x) (D x).
merge (all A conj all B) (all D) :- pi x\\ merge (A x conj B x) (D x).
merge (all A conj B) (all D) :- pi x\\ merge (A x conj B) (D x).
merge (A conj all B) (all D) :- pi x\\ merge (A conj B x) (D x).
merge (some A conj B) (some D) :- pi x\\ merge (A x conj B) (D x).
merge (A conj some B) (some D) :- pi x\\ merge (A conj B x) (D x).
merge (some A disj some B) (some D) :- pi x\\ merge (A x disj B x) (D x).
merge (all A disj B) (all D) :- pi x\\ merge (A x disj B) (D x).
merge (A disj all B) (all D) :- pi x\\ merge (A disj B x) (D x).
merge (some A disj B) (some D) :- pi x\\ merge (A x disj B) (D x).
merge (A disj some B) (some D) :- pi x\\ merge (A disj B x) (D x).
merge (all A imp some B) (some D) :- pi x\\ merge (A x imp B x) (D x).
merge (all A imp B) (some D) :- pi x\\ merge (A x imp B) (D x).
merge (some A imp B) (all D) :- pi x\\ merge (A x imp B) (D x).
merge (A imp all B) (all D) :- pi x\\ merge (A imp B x) (D x).
merge (A imp some B) (some D) :- pi x\\ merge (A imp B x) (D x).
merge A A :- plain A.
",
    ),
    (
        "prenex.sig",
        "sig prenex.
kind thing, formula type.
type a, b              thing.
type f                 thing -> thing.
type path, adjacent    thing -> thing -> formula.
type conj, disj, imp   formula -> formula -> formula.
type all, some         (thing -> formula) -> formula.
infixr conj 144.
infixr disj 143.
infixr imp  142.
type prenex            formula -> formula -> o.
",
    ),
    (
        "processes.mod",
        "module processes.
one (silent P) tau P.
one (match X X P) A Q :- one P A Q.
one (sent X Y P) (up X Y) P.
one (P plus Q) A R :- one P A R.
one (P plus Q) A R :- one Q A R.
one (P par Q) A (R par Q) :- one P A R.
one (P par Q) A (P par R) :- one Q A R.
one (new P) A (new Q) :- pi x\\ one (P x) A (Q x).
one (P par Q) tau (R par S Y) :- one P (up X Y) R, bound Q (down X) S.
one (P par Q) tau (R Y par S) :- bound P (down X) R, one Q (up X Y) S.
one (P par Q) tau (new x\\ R x par S x) :- bound P (up X) R, bound Q (down X) S.
one (P par Q) tau (new x\\ R x par S x) :- bound P (down X) R, bound Q (up X) S.
bound (taken X P) (down X) P.
bound (match X X P) A Q :- bound P A Q.
bound (P plus Q) A R :- bound P A R.
bound (P plus Q) A R :- bound Q A R.
bound (P par Q) A (x\\ R x par Q) :- bound P A R.
bound (P par Q) A (x\\ P par R x) :- bound Q A R.
bound (new P) A (y\\ new x\\ Q x y) :- pi x\\ bound (P x) A (Q x).
bound (new P) (up X) Q :- pi x\\ one (P x) (up X x) (Q x).
",
    ),
    (
        "processes.sig",
        "sig processes.
kind name, process, action type.
type a, b, c      name.
type tau          action.
type up, down     name -> name -> action.
type null         process.
type silent       process -> process.
type match        name -> name -> process -> process.
type taken        name -> (name -> process) -> process.
type sent         name -> name -> process -> process.
type plus, par    process -> process -> process.
type new          (name -> process) -> process.
infixr par  145.
infixr plus 146.
type one          process -> action -> process -> o.
type bound        process -> (name -> action) -> (name -> process) -> o.
",
    ),
    (
        "stlc.mod",
        "module stlc.
of tt bool.
of ff bool.
of (if L M N) T :- of L bool, of M T, of N T.
of (app M N) T :- of M (S arr T), of N S.
of (abs M) (S arr T) :- pi x\\ of x S => of (M x) T.
eval tt tt.
eval ff ff.
eval (abs M) (abs M).
eval (if L M N) V :- eval L tt, eval M V.
eval (if L M N) V :- eval L ff, eval N V.
eval (app M N) V :- eval M (abs R), eval N U, eval (R U) V.
type head  tm -> tm -> o.
type spine tm -> tm -> o.
norm tt tt.
norm ff ff.
norm (abs M) (abs N) :- pi x\\ spine x x => norm (M x) (N x).
norm (app M N) P :- head M (abs R), norm (R N) P.
norm (app M N) P :- spine (app M N) P.
norm X Y :- spine X Y.
head (abs M) (abs M).
head (app M N) P :- head M (abs R), head (R N) P.
spine (app M N) (app P Q) :- spine M P, norm N Q.
",
    ),
    (
        "stlc.sig",
        "sig stlc.
kind tm, ty type.
type abs   (tm -> tm) -> tm.
type app   tm -> tm -> tm.
type i, bool ty.
type arr     ty -> ty -> ty.
infixr arr 145.
type tt, ff  tm.
type if      tm -> tm -> tm -> tm.
type of      tm -> ty -> o.
type eval    tm -> tm -> o.
type norm    tm -> tm -> o.
",
    ),
];
