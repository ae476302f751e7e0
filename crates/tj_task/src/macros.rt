//! Straight code for a plan: each line is an ask, whose answer the lines below it have.

/// What a plan asks that has been told this log, as `next` answers it. The lines of the code are
///
/// ```text
/// let p = new;
/// let c = fork CHILD;
/// let c = fork CHILD, pass [p, c];
/// let c = fork CHILD, pass [p, c], hand [p];
/// let p: Promise = passed 0;
/// let c: Child = passed 1;
/// let x = get p;
/// let x = join c;
/// let x = get p or EXPRESSION;
/// let x = join c or EXPRESSION;
/// let q: Promise = get p;
/// let d: Child = join c;
/// let x = EXPRESSION;
/// get p;
/// join c;
/// set p = EXPRESSION;
/// set p = &q;
/// print EXPRESSION;
/// ```
///
/// and the last one is `return EXPRESSION`, `return &p`, `fail`, or `if (CONDITION) { LINES } else {
/// LINES }`.
#[macro_export]
macro_rules! steps {
    ($alloc:expr, $log:expr; $($rest:tt)*) => { $crate::steps_at!($alloc, $log, 0; $($rest)*) };
}

/// The same from ask number k on.
#[macro_export]
macro_rules! steps_at {
    ($alloc:expr, $log:expr, $k:expr; let $x:ident: Promise = passed $n:expr; $($rest:tt)*) => {{
        let $x = $crate::Promise { place: $n + 1 };
        $crate::steps_at!($alloc, $log, $k; $($rest)*)
    }};
    ($alloc:expr, $log:expr, $k:expr; let $x:ident: Child = passed $n:expr; $($rest:tt)*) => {{
        let $x = $crate::Child { place: $n + 1 };
        $crate::steps_at!($alloc, $log, $k; $($rest)*)
    }};
    ($alloc:expr, $log:expr, $k:expr; let $x:ident: Promise = get $p:ident; $($rest:tt)*) => {
        match $crate::promise_told_at($log, $k) {
            $crate::Seen::Ask => Ok($crate::Do::Get($p)),
            $crate::Seen::Told($x) => $crate::steps_at!($alloc, $log, $k + 1; $($rest)*),
            $crate::Seen::Other => Ok($crate::Do::Fail($crate::Trouble::Kind)),
        }
    };
    ($alloc:expr, $log:expr, $k:expr; let $x:ident: Child = get $p:ident; $($rest:tt)*) => {
        match $crate::child_told_at($log, $k) {
            $crate::Seen::Ask => Ok($crate::Do::Get($p)),
            $crate::Seen::Told($x) => $crate::steps_at!($alloc, $log, $k + 1; $($rest)*),
            $crate::Seen::Other => Ok($crate::Do::Fail($crate::Trouble::Kind)),
        }
    };
    ($alloc:expr, $log:expr, $k:expr; let $x:ident: Promise = join $p:ident; $($rest:tt)*) => {
        match $crate::promise_told_at($log, $k) {
            $crate::Seen::Ask => Ok($crate::Do::Join($p)),
            $crate::Seen::Told($x) => $crate::steps_at!($alloc, $log, $k + 1; $($rest)*),
            $crate::Seen::Other => Ok($crate::Do::Fail($crate::Trouble::Kind)),
        }
    };
    ($alloc:expr, $log:expr, $k:expr; let $x:ident: Child = join $p:ident; $($rest:tt)*) => {
        match $crate::child_told_at($log, $k) {
            $crate::Seen::Ask => Ok($crate::Do::Join($p)),
            $crate::Seen::Told($x) => $crate::steps_at!($alloc, $log, $k + 1; $($rest)*),
            $crate::Seen::Other => Ok($crate::Do::Fail($crate::Trouble::Kind)),
        }
    };
    ($alloc:expr, $log:expr, $k:expr; let $x:ident = new; $($rest:tt)*) => {
        match $crate::promise_at($log, $k) {
            $crate::Seen::Ask => Ok($crate::Do::New),
            $crate::Seen::Told($x) => $crate::steps_at!($alloc, $log, $k + 1; $($rest)*),
            $crate::Seen::Other => Ok($crate::Do::Fail($crate::Trouble::Kind)),
        }
    };
    (
        $alloc:expr, $log:expr, $k:expr;
        let $x:ident = fork $child:expr, pass [$($p:ident),*], hand [$($h:ident),*];
        $($rest:tt)*
    ) => {
        match $crate::child_at($log, $k) {
            $crate::Seen::Ask => $crate::fork_with($alloc, $child, &[$($p.place),*], &[$($h.place),*]),
            $crate::Seen::Told($x) => $crate::steps_at!($alloc, $log, $k + 1; $($rest)*),
            $crate::Seen::Other => Ok($crate::Do::Fail($crate::Trouble::Kind)),
        }
    };
    ($alloc:expr, $log:expr, $k:expr; let $x:ident = fork $child:expr, pass [$($p:ident),*]; $($rest:tt)*) => {
        match $crate::child_at($log, $k) {
            $crate::Seen::Ask => $crate::fork_with($alloc, $child, &[$($p.place),*], &[]),
            $crate::Seen::Told($x) => $crate::steps_at!($alloc, $log, $k + 1; $($rest)*),
            $crate::Seen::Other => Ok($crate::Do::Fail($crate::Trouble::Kind)),
        }
    };
    ($alloc:expr, $log:expr, $k:expr; let $x:ident = fork $child:expr; $($rest:tt)*) => {
        match $crate::child_at($log, $k) {
            $crate::Seen::Ask => Ok($crate::Do::Fork($child)),
            $crate::Seen::Told($x) => $crate::steps_at!($alloc, $log, $k + 1; $($rest)*),
            $crate::Seen::Other => Ok($crate::Do::Fail($crate::Trouble::Kind)),
        }
    };
    ($alloc:expr, $log:expr, $k:expr; let $x:ident = get $p:ident or $v:expr; $($rest:tt)*) => {
        match $crate::num_or_at($log, $k, $v) {
            $crate::Seen::Ask => Ok($crate::Do::GetOr($p)),
            $crate::Seen::Told($x) => $crate::steps_at!($alloc, $log, $k + 1; $($rest)*),
            $crate::Seen::Other => Ok($crate::Do::Fail($crate::Trouble::Kind)),
        }
    };
    ($alloc:expr, $log:expr, $k:expr; let $x:ident = get $p:ident; $($rest:tt)*) => {
        match $crate::num_at($log, $k) {
            $crate::Seen::Ask => Ok($crate::Do::Get($p)),
            $crate::Seen::Told($x) => $crate::steps_at!($alloc, $log, $k + 1; $($rest)*),
            $crate::Seen::Other => Ok($crate::Do::Fail($crate::Trouble::Kind)),
        }
    };
    ($alloc:expr, $log:expr, $k:expr; let $x:ident = join $p:ident or $v:expr; $($rest:tt)*) => {
        match $crate::num_or_at($log, $k, $v) {
            $crate::Seen::Ask => Ok($crate::Do::JoinOr($p)),
            $crate::Seen::Told($x) => $crate::steps_at!($alloc, $log, $k + 1; $($rest)*),
            $crate::Seen::Other => Ok($crate::Do::Fail($crate::Trouble::Kind)),
        }
    };
    ($alloc:expr, $log:expr, $k:expr; let $x:ident = join $p:ident; $($rest:tt)*) => {
        match $crate::num_at($log, $k) {
            $crate::Seen::Ask => Ok($crate::Do::Join($p)),
            $crate::Seen::Told($x) => $crate::steps_at!($alloc, $log, $k + 1; $($rest)*),
            $crate::Seen::Other => Ok($crate::Do::Fail($crate::Trouble::Kind)),
        }
    };
    ($alloc:expr, $log:expr, $k:expr; let $x:ident = $v:expr; $($rest:tt)*) => {{
        let $x = $v;
        $crate::steps_at!($alloc, $log, $k; $($rest)*)
    }};
    ($alloc:expr, $log:expr, $k:expr; get $p:ident; $($rest:tt)*) => {
        match $crate::value_at($log, $k) {
            $crate::Seen::Ask => Ok($crate::Do::Get($p)),
            $crate::Seen::Told(()) => $crate::steps_at!($alloc, $log, $k + 1; $($rest)*),
            $crate::Seen::Other => Ok($crate::Do::Fail($crate::Trouble::Kind)),
        }
    };
    ($alloc:expr, $log:expr, $k:expr; join $p:ident; $($rest:tt)*) => {
        match $crate::value_at($log, $k) {
            $crate::Seen::Ask => Ok($crate::Do::Join($p)),
            $crate::Seen::Told(()) => $crate::steps_at!($alloc, $log, $k + 1; $($rest)*),
            $crate::Seen::Other => Ok($crate::Do::Fail($crate::Trouble::Kind)),
        }
    };
    ($alloc:expr, $log:expr, $k:expr; set $p:ident = & $q:ident; $($rest:tt)*) => {
        match $crate::done_at($log, $k) {
            $crate::Seen::Ask => Ok($crate::Do::Set($p, $crate::Pay::Ref($q.place))),
            $crate::Seen::Told(()) => $crate::steps_at!($alloc, $log, $k + 1; $($rest)*),
            $crate::Seen::Other => Ok($crate::Do::Fail($crate::Trouble::Kind)),
        }
    };
    ($alloc:expr, $log:expr, $k:expr; set $p:ident = $v:expr; $($rest:tt)*) => {
        match $crate::done_at($log, $k) {
            $crate::Seen::Ask => Ok($crate::Do::Set($p, $crate::Pay::Num($v))),
            $crate::Seen::Told(()) => $crate::steps_at!($alloc, $log, $k + 1; $($rest)*),
            $crate::Seen::Other => Ok($crate::Do::Fail($crate::Trouble::Kind)),
        }
    };
    ($alloc:expr, $log:expr, $k:expr; print $v:expr; $($rest:tt)*) => {
        match $crate::done_at($log, $k) {
            $crate::Seen::Ask => Ok($crate::Do::Emit($v)),
            $crate::Seen::Told(()) => $crate::steps_at!($alloc, $log, $k + 1; $($rest)*),
            $crate::Seen::Other => Ok($crate::Do::Fail($crate::Trouble::Kind)),
        }
    };
    ($alloc:expr, $log:expr, $k:expr; if ($c:expr) { $($yes:tt)* } else { $($no:tt)* }) => {
        if $c {
            $crate::steps_at!($alloc, $log, $k; $($yes)*)
        } else {
            $crate::steps_at!($alloc, $log, $k; $($no)*)
        }
    };
    ($alloc:expr, $log:expr, $k:expr; return & $q:ident) => {
        Ok($crate::Do::End($crate::Pay::Ref($q.place)))
    };
    ($alloc:expr, $log:expr, $k:expr; return $v:expr) => {
        Ok($crate::Do::End($crate::Pay::Num($v)))
    };
    ($alloc:expr, $log:expr, $k:expr; fail) => { Ok($crate::Do::Fail($crate::Trouble::Kind)) };
}
