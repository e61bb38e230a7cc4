//! The texts of `--help`.

pub(crate) const HELP: &str =
    "Each command reads one JSON document from standard input and writes its answer to standard output.
A fault is one line on standard error: where it is, its name, and what was found or expected.

  eval     tries one condition on one value, before a template has it
  check    checks a whole document, and prints what each condition may cost at most
  list     checks a whole document, and lists the code of each condition
  run      judges a document's measurements, and reports the phase of each run
  explain  makes the plain run of a document, and says what led to each event's verdict and effect

A document for check, list, run and explain has a template, the shapes of its metrics' measured
values, runs and measurements; `argo_judge run --help` shows one.

With --output json, eval, check, run and explain write one JSON object in one line, with the same
facts.

Exit status:
  0  the command was carried out
  1  run: a run is Failed, Error or Inconclusive
  2  the command line or the input is refused
  3  out of memory
  4  a read or a write failed
  5  run: a thread couldn't be started (try fewer workers, or --plain), or a measurement was lost,
     which --ordered and --plain can't (please report that)

Examples:
  echo '{\"condition\":\"result >= 0.95\",\"shape\":\"decimal\",\"value\":\"0.9523\"}' | argo_judge eval
  argo_judge check < document.json
  kubectl get analysistemplate success-rate -o json |
    jq '{manifest: ., shapes: {\"success-rate\": {list: \"decimal\", max: 10}}, runs: [{name: \"canary-1\"}],
         measurements: [{run: \"canary-1\", metric: \"success-rate\", value: [\"0.97\"]}]}' |
    argo_judge run --plain
  argo_judge explain --run canary-1 < document.json";

pub(crate) const EVAL_HELP: &str =
    "Standard input is {\"condition\":TEXT,\"shape\":SHAPE,\"value\":VALUE}.
  condition  as a successCondition or failureCondition of Argo Rollouts: `result`, literals,
             fields, indices, + - * / %, == != < <= > >=, in, not in, contains, startsWith,
             endsWith, and, or, not, ? :, lists, len, isNil, default, all, any, none, one, count,
             filter; {{args.x}} is no part of it: arguments are bound in a template
             (argo_judge run --help)
  shape      \"bool\", \"whole\", \"decimal\", \"text\", {\"list\":SHAPE,\"max\":NUMBER},
             {\"record\":{NAME:SHAPE,..}} or {\"optional\":SHAPE}
  value      JSON of that shape; a decimal is a text, as \"0.9523\", or a whole number
Standard output is true, false, or `fault` and a name: IndexOutOfRange, NilOperand, Overflow or
DivisionByZero. With --output json it is {\"answer\":ANSWER,\"fault\":NAME,\"version\":1}, one of the two null.

Examples:
  echo '{\"condition\":\"result >= 0.95\",\"shape\":\"decimal\",\"value\":\"0.9523\"}' | argo_judge eval
  echo '{\"condition\":\"all(result, # < 500)\",\"shape\":{\"list\":\"whole\",\"max\":10},\
         \"value\":[437,512]}' | argo_judge eval";

/// The help of `check`, `list`, `run` and `explain`: the document that they read, and what they make of it.
macro_rules! document_help {
    ($answer:literal) => {
        concat!(
            "Standard input is one JSON document:

  {
    \"manifest\": {
      \"apiVersion\": \"argoproj.io/v1alpha1\", \"kind\": \"AnalysisTemplate\", \
      \"metadata\": {\"name\": \"success-rate\"},
      \"spec\": {
        \"args\": [{\"name\": \"threshold\", \"value\": \"0.95\"}],
        \"metrics\": [{\"name\": \"success-rate\", \"interval\": \"1m\", \"count\": 3,
                     \"successCondition\": \"result[0] >= {{args.threshold}}\"}]}},
    \"shapes\": {\"success-rate\": {\"list\": \"decimal\", \"max\": 10}},
    \"runs\": [{\"name\": \"canary-1\"}, {\"name\": \"canary-2\", \"args\": {\"threshold\": \"0.99\"}}],
    \"measurements\": [
      {\"run\": \"canary-1\", \"metric\": \"success-rate\", \"value\": [\"0.97\"]},
      {\"run\": \"canary-2\", \"metric\": \"success-rate\", \"value\": [\"0.97\"]},
      {\"run\": \"canary-1\", \"stop\": true}
    ]
  }

  manifest      the AnalysisTemplate or ClusterAnalysisTemplate, as `kubectl get .. NAME -o json` prints it
  shapes        for each metric, by its name, the shape of what is measured (argo_judge eval --help)
  runs          1 to 64 runs of the template, each with a name of its own; `args` go before the
                template's arguments and may be missing
  measurements  what happened, in this order; may be missing. Each has a `run` and either
                \"stop\":true or a `metric` and one of `value` and `error`: what was measured, or
                anything where the provider failed. A decimal is a text, as \"0.97\", or a whole number
Members that aren't named here are ignored.

",
            $answer
        )
    };
}

pub(crate) const CHECK_HELP: &str = document_help!(
    "Standard output has a line for each condition of each run, its arguments put in: how many
operations its code has, how many operands it holds at once at most, and what it costs at most:

  run canary-1 metric success-rate success operations=6 depth=2 budget=6
  run canary-2 metric success-rate success operations=6 depth=2 budget=6"
);

pub(crate) const LIST_HELP: &str = document_help!(
    "Standard output has the code of each condition of each run, its arguments put in, an operation
a line; decimals are in millionths:

  run canary-1 metric success-rate success
  0 LoadResult
  1 PushWhole 0
  2 Index
  3 PushDecimal 950000
  4 GeD
  5 Return
  run canary-2 metric success-rate success
  0 LoadResult
  1 PushWhole 0
  2 Index
  3 PushDecimal 990000
  4 GeD
  5 Return"
);

pub(crate) const RUN_HELP: &str = document_help!(
    "Standard output has for each run its phase, then each metric with its phase and counts, then
what happened to it, by its number in `measurements`, from 0:

  run canary-1 Successful
  metric success-rate Successful successful=1 failed=0 inconclusive=0 error=0 consecutiveError=0
  event 0 success-rate Successful applied
  event 2 stop closed Successful
  run canary-2 Failed
  metric success-rate Failed successful=0 failed=1 inconclusive=0 error=0 consecutiveError=0
  event 1 success-rate Failed closed Failed

A phase is Pending, Running, Successful, Failed, Error or Inconclusive. The exit status is 1 where a
run is Failed, Error or Inconclusive, as it is here. Why? Ask `argo_judge explain`.

There are three ways to run, whose reports hold each measurement once:
  --plain    one thread, one measurement after another. The events of a run are in the order of
             their numbers. It starts no threads and is as fast as any where conditions are cheap.
  --ordered  workers, which are threads that judge measurements side by side. The report is byte for
             byte that of --plain: for pipelines, which compare reports and judge much.
  neither    workers, and each posts what it judged as soon as it has, as a controller would see it.
             The events of a run are in the order in which they were posted, which may differ from
             the order of their numbers, and from one start to the next."
);

pub(crate) const EXPLAIN_HELP: &str = document_help!(
    "Standard output has each event of the plain run (argo_judge run --plain), and what led to its
verdict and its effect:
  - the value that was measured
  - each condition, its arguments put in, and the values of its parts in the order of evaluation
  - the counts of the metric next to its limits
  - why the event closed its run, or what had closed the run before an event that came late
  - what each metric still waits for

All events are explained, unless one of --event N, --run NAME and --metric NAME selects some of them.
The exit status is 0 even where a run is Failed, Error or Inconclusive. What `run` refuses is refused
with the same status.

Examples:
  argo_judge explain --run canary-2 < document.json
  argo_judge explain --event 1 --output json < document.json"
);
